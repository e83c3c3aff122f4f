// A session's frame, lent as one whole frame: written out with its performative in the written form.
// The written length is known, and every refusal found, before the first byte is written.
#![tactic(auto)]

mod error;
mod field;

ghost use Rattle.std.specs.Prelude.{◌≡◌, true, ◌-◌, ◌^◌, ◌<◌, ◌≤◌, length, take};
ghost use Rattle.octets.specs.Octets.{put};
ghost use Rattle.octets.specs.Output.{Wrote};
ghost use Rattle.octets.specs.Verdict.{accepts};
ghost use Rattle.serializer.specs.Written.{joined, trimmed};
ghost use Rattle.performatives.specs.Fields.{fields_of};
ghost use Rattle.performatives.specs.Performative.{performative};
ghost use Rattle.session_frame.specs.Session.{write_session};
ghost use Rattle.session_frame.specs.Parts.{
  first_len,
  fields_from,
  written_from,
  Checked,
  copied,
  as_they_are,
  kept_of,
  Room,
  head_bytes,
  plan_fields,
  Planned,
  plan_bytes,
  write_body,
};

use field::{Kept, before, field_size, put_field};
use frame_decoder::Frame;
use octets::Refusal;

// ---- fields

// How many bytes the first of `count` fields takes.
fn first_len(s: &[u8], count: u32) -> usize
    ensures { result ≡ first_len count s.now }
{
    if count == 0 {
        return 0;
    }
    values::value_end(s, values::DEPTH).unwrap_or(0)
}

// What is kept of `count` fields, by their rows from `i` on.
fn trim_fields(s: &[u8], code: u64, i: usize, count: u32) -> Kept
    requires { Checked (fields_from code i) count s.now }
    ensures { result ≡ kept_of (trimmed (written_from (fields_from code i) count s.now)) }
{
    let Some(row) = performatives::field_row(code, i) else {
        return Kept { count: 0, len: 0 };
    };
    let n = first_len(s, count);
    let field = field_size(&s[..n], row);
    let rest = trim_fields(&s[n..], code, i + 1, count.saturating_sub(1));
    before(field, rest)
}

// Lays the first `left` of `count` fields, by their rows from `i` on.
fn put_fields(out: &mut [u8], at: usize, s: &[u8], code: u64, i: usize, count: u32, left: usize)
    requires { Checked (fields_from code i) count s.now × Room out.old at (joined (take left (written_from (fields_from code i) count s.now))) }
    ensures { out.new ≡ put out.old at (joined (take left (written_from (fields_from code i) count s.now))) }
{
    if left == 0 {
        return;
    }
    let Some(row) = performatives::field_row(code, i) else {
        return;
    };
    let n = first_len(s, count);
    let next = put_field(out, at, &s[..n], row);
    put_fields(
        out,
        next,
        &s[n..],
        code,
        i + 1,
        count.saturating_sub(1),
        left - 1,
    );
}

// ---- fields that are written as they are

// Whether all fields of a performative are written as they are: those of Attach, Flow, Transfer and Disposition.
fn is_copied(code: u64) -> bool
    ensures { result ≡ copied (fields_of code) }
{
    if code < 18 {
        return false;
    }
    code <= 21
}

// What is kept of `count` fields as they are: all up to the last one that is not null. From a malformed one on they count as null.
fn kept_as_is(s: &[u8], count: u32) -> Kept
    ensures { result ≡ kept_of (trimmed (as_they_are count s.now)) }
{
    let mut at: usize = 0;
    let mut n: usize = 0;
    let mut len: usize = 0;
    for i in 0..count {
        let end = values::end_at(s, at, values::DEPTH);
        if end == 0 {
            return Kept { count: n, len };
        }
        if s[at] != 0x40 {
            n = (i as usize) + 1;
            len = end;
        }
        at = end;
    }
    Kept { count: n, len }
}

// What is kept of all fields of a performative.
fn trim_all(s: &[u8], code: u64, count: u32) -> Kept
    requires { Checked (fields_from code 0) count s.now }
    ensures { result ≡ kept_of (trimmed (written_from (fields_from code 0) count s.now)) }
{
    if is_copied(code) {
        return kept_as_is(s, count);
    }
    trim_fields(s, code, 0, count)
}

// ---- a frame

// A performative: its descriptor, its fields and where they lie, how many of them are kept, and how many bytes these take.
#[derive(Clone, Copy)]
struct Plan {
    code: u64,
    count: u32,
    from: usize,
    end: usize,
    kept: usize,
    len: usize,
}

// Lays what stands before the fields, and answers where they begin.
fn put_head(out: &mut [u8], channel: u16, size: u32, plan: Plan) -> usize
    requires { (plan.code < 256) × (plan.kept < 256) × (plan.len < 2 ^ 32) × (20 ≤ length out.old) }
    ensures { (result ≡ length (head_bytes channel size plan)) × (out.new ≡ put out.old 0 (head_bytes channel size plan)) }
{
    frame_encoder::put_frame_header(out, size, channel);
    serializer::put_composite_header(out, 8, plan.code as u8, plan.kept as u8, plan.len as u32);
    8 + serializer::composite_header_len(plan.kept, plan.len, plan.code as u8)
}

// Lays the fields that are kept; s are the bytes of all.
fn put_all(out: &mut [u8], at: usize, s: &[u8], plan: Plan)
    requires { Checked (fields_from plan.code 0) plan.count s.now × (plan.kept ≡ length (trimmed (plan_fields plan s.now))) × (plan.len ≡ length (joined (trimmed (plan_fields plan s.now)))) × Room out.old at (joined (take plan.kept (plan_fields plan s.now))) }
    ensures { out.new ≡ put out.old at (joined (take plan.kept (plan_fields plan s.now))) }
{
    if is_copied(plan.code) {
        let len = plan.len;
        octets::copy(out, at, &s[..len]);
        return;
    }
    put_fields(out, at, s, plan.code, 0, plan.count, plan.kept);
}

// Lays the frame: its header, the performative, and what stands after it in the body.
fn put_frame(out: &mut [u8], body: &[u8], channel: u16, size: u32, plan: Plan)
    requires { Planned plan body.now × (size ≡ length (plan_bytes channel plan body.now)) × (size ≤ length out.old) × (20 ≤ length out.old) }
    ensures { out.new ≡ put out.old 0 (plan_bytes channel plan body.now) }
{
    let from = plan.from;
    let end = plan.end;
    let at = put_head(out, channel, size, plan);
    put_all(out, at, &body[from..end], plan);
    octets::copy(out, at + plan.len, &body[end..]);
}

fn write_body(out: &mut [u8], body: &[u8], channel: u16, limit: u32) -> Result<usize, Refusal>
    requires { (accepts (performative body.now) ≡ true) × (16384 ≤ length out.old) }
    ensures { Wrote (write_body channel body.now limit) result out.old out.new }
{
    let Some(list) = performatives::described_list(body) else {
        return Err(Refusal::BodyMalformed);
    };
    let kept = trim_all(&body[list.from..list.end], list.code, list.count);
    let plan = Plan {
        code: list.code,
        count: list.count,
        from: list.from,
        end: list.end,
        kept: kept.count,
        len: kept.len,
    };
    let head = 8 + serializer::composite_header_len(kept.count, kept.len, list.code as u8);
    let size = head + kept.len + (body.len() - list.end);
    if (limit as usize) < size {
        return Err(Refusal::OverWritingLimit);
    }
    if 16384 < size {
        return Err(Refusal::OverWritingLimit);
    }
    put_frame(out, body, channel, size as u32, plan);
    Ok(size)
}

// Writes the frame that is lent, which a session sends: a Begin's remote-channel is at most `highest`, and what is written takes at most `limit` bytes.
// Bytes after the lent frame are not looked at.
pub fn write(frame: &[u8], highest: u16, limit: u32, out: &mut [u8]) -> Result<usize, Refusal>
    ensures { Wrote (write_session highest frame.now limit out.old) result out.old out.new }
{
    if out.len() < 16384 {
        return Err(Refusal::NoRoom);
    }
    match frame_decoder::session_frame(frame, highest)? {
        Frame::Empty {
            channel: _,
            size: _,
            from: _,
        } => Err(Refusal::BodyMalformed),
        Frame::Body {
            channel,
            size: _,
            from: _,
            performative: _,
            end: _,
        } => write_body(out, frame_decoder::body(frame), channel, limit),
    }
}
