// How a line spells its words, its numbers and its bytes.

// The words of a line that are still to be read.
#[derive(Clone, Copy, Drop)]
pub(crate) struct Words<'a> {
    rest: &'a [u8],
}

impl<'a> Words<'a> {
    pub(crate) fn of(line: &'a [u8]) -> Self {
        Words { rest: line }
    }

    // The next word.
    pub(crate) fn next(&mut self) -> Option<&'a [u8]> {
        let from = self.rest.iter().position(|b| *b != b' ')?;
        let (_, word) = self.rest.split_at(from);
        let end = word.iter().take_while(|b| **b != b' ').count();
        let (word, rest) = word.split_at(end);
        self.rest = rest;
        Some(word)
    }
}

pub(crate) fn is_number(word: &[u8]) -> bool {
    !word.is_empty() && word.iter().all(|b| b.is_ascii_digit())
}

// Whether a word is bytes in hexadecimal: `-` for none, or pairs of digits for at most 65,536 bytes.
pub(crate) fn is_bytes(word: &[u8]) -> bool {
    word == b"-".as_slice()
        || !word.is_empty()
            && word.len() % 2 == 0
            && word.len() <= 131_072
            && word.iter().all(|b| words::digit(*b).is_some())
}

// Lays bytes at a place, as far as there is room, and answers the next place.
fn lay(out: &mut [u8], at: usize, bytes: &[u8]) -> usize {
    let Some(room) = out.get_mut(at..) else {
        return at;
    };
    let n = bytes.len().min(room.len());
    room[..n].copy_from_slice(&bytes[..n]);
    at + n
}

// Has the two bytes before a place so many times in all, as far as there is room, and answers the next place.
fn repeat(out: &mut [u8], at: usize, times: u64) -> usize {
    let Some((before, room)) = out.split_at_mut_checked(at) else {
        return at;
    };
    let [.., high, low] = *before else {
        return at;
    };
    let more = (times.saturating_sub(1) as usize)
        .saturating_mul(2)
        .min(room.len());
    let (pairs, odd) = room[..more].as_chunks_mut::<2>();
    for pair in pairs.iter_mut() {
        *pair = [high, low];
    }
    odd.fill(high);
    at + more
}

// Copies a line with its bytes spelled out: 61*3 becomes 616161, and each _ goes. Answers how many bytes that takes. What finds no room is left out.
pub(crate) fn spelled(line: &[u8], out: &mut [u8]) -> usize {
    let mut at = 0;
    let mut repeats = false;
    for part in line.split_inclusive(|b| *b == b'*' || *b == b'_') {
        let mut rest = part;
        if repeats {
            let digits = part.iter().take_while(|b| b.is_ascii_digit()).count();
            let (times, after) = part.split_at(digits);
            at = repeat(out, at, words::decimal(times));
            rest = after;
        }
        let (plain, starred) = match rest {
            [plain @ .., b'*'] => (plain, true),
            [plain @ .., b'_'] => (plain, false),
            plain => (plain, false),
        };
        at = lay(out, at, plain);
        repeats = starred;
    }
    at
}
