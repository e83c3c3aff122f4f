// Frames written: Open, Close, and the empty frame.
// A frame's length is known, and every refusal found, before its first byte is written.
#![tactic(auto)]

ghost use Rattle.std.specs.Prelude.{◌≡◌, ◌+◌, ◌≤◌, ◌<◌, [], ◌∷◌, ◌++◌, length, option_copied};
ghost use Rattle.octets.specs.Octets.{put};
ghost use Rattle.octets.specs.Output.{Wrote};
ghost use Rattle.serializer.specs.Written.{joined, trimmed, composite_header, composite};
ghost use Rattle.frame_encoder.specs.Answers.{settings_say, error_text, Sized, ErrorSized, Short, ErrorRoom};
ghost use Rattle.frame_encoder.specs.Frames.{
  frame_header,
  settings_ok,
  idle_kept,
  open_fields,
  write_open,
  description_ok,
  error_ok,
  error_fields,
  error_field,
  write_close,
  write_empty,
};

use octets::Refusal;
use serializer::Text;

// What one end says in its Open. Without an idle-time-out in milliseconds it never times out.
#[derive(Clone, Copy)]
pub struct Settings<'a> {
    pub container_id: &'a [u8],
    pub max_frame_size: u32,
    pub channel_max: u16,
    pub idle_time_out: Option<u32>,
}

// What a Close tells of an error.
#[derive(Clone, Copy)]
pub struct ErrorText<'a> {
    pub condition: &'a [u8],
    pub description: Option<&'a [u8]>,
}

pub const MIN_MAX_FRAME_SIZE: u32 = 512;

pub const MAX_FRAME_SIZE: u32 = 16384;

// How many fields are left when trailing nulls are dropped, and how many bytes they take.
#[derive(Clone, Copy)]
struct Fields {
    count: u8,
    size: u32,
}

// The eight bytes before a frame's body, at the front of the buffer, if they fit.
pub fn put_frame_header(out: &mut [u8], size: u32, channel: u16)
    ensures { out.new ≡ put out.old 0 (frame_header size channel) }
{
    octets::put_number(
        out,
        0,
        8,
        (size as u64) * 0x1_0000_0000 + 0x200_0000 + (channel as u64),
    );
}

// Whether a container-id, a max-frame-size and a channel-max are within their limits: else the settings are refused with 8. Every u16 is a channel-max.
pub fn settings_ok(settings: &Settings<'_>) -> bool
    ensures { result ≡ settings_ok settings.now.container_id.now settings.now.max_frame_size settings.now.channel_max }
{
    if 255 < settings.container_id.len() {
        return false;
    }
    if !text::is_utf8(settings.container_id) {
        return false;
    }
    if settings.max_frame_size < MIN_MAX_FRAME_SIZE {
        return false;
    }
    if MAX_FRAME_SIZE < settings.max_frame_size {
        return false;
    }
    true
}

// The fields of an Open: those that are left, without the null in the place of the idle-time-out.
fn open_fields(settings: &Settings<'_>) -> Fields
    requires { length settings.now.container_id.now ≤ 255 }
    ensures { Sized (open_fields (settings_say settings.now)) result.count result.size }
{
    let before = serializer::text_len(settings.container_id, Text::String) + 1;
    let fixed = before + serializer::uint_len(settings.max_frame_size) + 3;
    match settings.idle_time_out {
        None => Fields {
            count: 4,
            size: fixed as u32,
        },
        Some(n) => Fields {
            count: 5,
            size: (fixed + serializer::uint_len(n)) as u32,
        },
    }
}

fn put_idle(out: &mut [u8], at: usize, idle: Option<u32>)
    ensures { out.new ≡ put out.old at (idle_kept idle) }
{
    match idle {
        None => octets::put_number(out, at, 0, 0),
        Some(n) => serializer::put_uint(out, at, n),
    }
}

fn put_open_fields(out: &mut [u8], at: usize, settings: &Settings<'_>)
    requires { (length settings.now.container_id.now ≤ 255) × (at + length (joined (trimmed (open_fields (settings_say settings.now)))) ≤ length out.old) }
    ensures { out.new ≡ put out.old at (joined (trimmed (open_fields (settings_say settings.now)))) }
{
    let n = serializer::text_len(settings.container_id, Text::String);
    let m = serializer::uint_len(settings.max_frame_size);
    serializer::put_text(out, at, Text::String, settings.container_id);
    octets::put_number(out, at + n, 1, 0x40);
    serializer::put_uint(out, at + n + 1, settings.max_frame_size);
    serializer::put_ushort(out, at + n + 1 + m, settings.channel_max);
    put_idle(out, at + n + 1 + m + 3, settings.idle_time_out);
}

// The number of bytes of a frame with these fields.
fn frame_len(code: u8, count: u8, size: u32) -> usize
    requires { size ≤ 1000 }
    ensures { result ≡ 8 + length (composite_header code count size) + size }
{
    8 + serializer::composite_header_len(count as usize, size as usize, code) + size as usize
}

// What stands before the fields of a frame that is n bytes long; where the fields begin.
fn put_start(out: &mut [u8], n: u32, code: u8, count: u8, size: u32) -> usize
    requires { 20 ≤ length out.old }
    ensures { (result ≡ 8 + length (composite_header code count size)) × (out.new ≡ put out.old 0 (frame_header n 0 ++ composite_header code count size)) }
{
    put_frame_header(out, n, 0);
    serializer::put_composite_header(out, 8, code, count, size);
    8 + serializer::composite_header_len(count as usize, size as usize, code)
}

// Writes an Open frame. The refusals are `NoRoom`, `OutOfBounds` and `OverWritingLimit`.
pub fn write_open(settings: &Settings<'_>, limit: u32, out: &mut [u8]) -> Result<usize, Refusal>
    ensures { Wrote (write_open (settings_say settings.now) limit out.old) result out.old out.new }
{
    if out.len() < 16384 {
        return Err(Refusal::NoRoom);
    }
    if !settings_ok(settings) {
        return Err(Refusal::OutOfBounds);
    }
    let fields = open_fields(settings);
    let n = frame_len(16, fields.count, fields.size);
    if (limit as usize) < n {
        return Err(Refusal::OverWritingLimit);
    }
    let at = put_start(out, n as u32, 16, fields.count, fields.size);
    put_open_fields(out, at, settings);
    Ok(n)
}

fn description_ok(description: Option<&[u8]>) -> bool
    ensures { result ≡ description_ok (option_copied description.entry) }
{
    match description {
        None => true,
        Some(text) => {
            if 255 < text.len() {
                return false;
            }
            text::is_utf8(text)
        }
    }
}

// Whether the texts of an error are within their limits: else it is refused with 8.
pub fn error_ok(error: &ErrorText<'_>) -> bool
    ensures { result ≡ error_ok (error_text error.now) }
{
    if 255 < error.condition.len() {
        return false;
    }
    if !text::is_ascii(error.condition) {
        return false;
    }
    description_ok(error.description)
}

fn error_fields(error: &ErrorText<'_>) -> Fields
    requires { Short (error_text error.now) }
    ensures { ErrorSized (error_text error.now) result.count result.size }
{
    let n = serializer::text_len(error.condition, Text::Symbol);
    match error.description {
        None => Fields {
            count: 1,
            size: n as u32,
        },
        Some(description) => Fields {
            count: 2,
            size: (n + serializer::text_len(description, Text::String)) as u32,
        },
    }
}

// The condition, and the description if there is one.
fn put_texts(out: &mut [u8], at: usize, error: &ErrorText<'_>)
    requires { (Short (error_text error.now)) × (at + length (joined (trimmed (error_fields (error_text error.now)))) ≤ length out.old) }
    ensures { out.new ≡ put out.old at (joined (trimmed (error_fields (error_text error.now)))) }
{
    let n = serializer::text_len(error.condition, Text::Symbol);
    serializer::put_text(out, at, Text::Symbol, error.condition);
    if let Some(description) = error.description {
        serializer::put_text(out, at + n, Text::String, description);
    }
}

// The number of bytes of an error with these fields.
fn error_len(count: u8, size: u32) -> u32
    requires { size ≤ 600 }
    ensures { (result ≡ length (composite_header 29 count size) + size) × (result ≤ 1000) }
{
    serializer::composite_header_len(count as usize, size as usize, 29) as u32 + size
}

fn put_error(out: &mut [u8], at: usize, fields: Fields, error: &ErrorText<'_>)
    requires { (Short (error_text error.now)) × ErrorRoom (error_text error.now) fields.count fields.size at (length out.old) }
    ensures { out.new ≡ put out.old at (error_field (Some (error_text error.now))) }
{
    let count = fields.count;
    let size = fields.size;
    let h = serializer::composite_header_len(count as usize, size as usize, 29);
    serializer::put_composite_header(out, at, 29, count, size);
    put_texts(out, at + h, error);
}

// Writes a Close frame with an error. The refusals are `NoRoom`, `OutOfBounds` and `OverWritingLimit`.
pub fn write_close_with_error(
    error: &ErrorText<'_>,
    limit: u32,
    out: &mut [u8],
) -> Result<usize, Refusal>
    ensures { Wrote (write_close (Some (error_text error.now)) limit out.old) result out.old out.new }
{
    if out.len() < 16384 {
        return Err(Refusal::NoRoom);
    }
    if !error_ok(error) {
        return Err(Refusal::OutOfBounds);
    }
    let fields = error_fields(error);
    let size = error_len(fields.count, fields.size);
    let n = frame_len(24, 1, size);
    if (limit as usize) < n {
        return Err(Refusal::OverWritingLimit);
    }
    let at = put_start(out, n as u32, 24, 1, size);
    put_error(out, at, fields, error);
    Ok(n)
}

// Writes a Close frame without an error. The refusals are `NoRoom` and `OverWritingLimit`.
pub fn write_close(limit: u32, out: &mut [u8]) -> Result<usize, Refusal>
    ensures { Wrote (write_close None limit out.old) result out.old out.new }
{
    if out.len() < 16384 {
        return Err(Refusal::NoRoom);
    }
    if limit < 12 {
        return Err(Refusal::OverWritingLimit);
    }
    put_start(out, 12, 24, 0, 0);
    Ok(12)
}

// Writes an empty frame. The refusals are `NoRoom` and `OverWritingLimit`.
pub fn write_empty(limit: u32, out: &mut [u8]) -> Result<usize, Refusal>
    ensures { Wrote (write_empty limit out.old) result out.old out.new }
{
    if out.len() < 16384 {
        return Err(Refusal::NoRoom);
    }
    if limit < 8 {
        return Err(Refusal::OverWritingLimit);
    }
    put_frame_header(out, 8, 0);
    Ok(8)
}
