// The writing of a session's frame, without a connection.
use crate::operations::sum_of;
use octets::Refusal;

// A typical Transfer: handle, delivery-id, delivery-tag, message-format and settled, and a payload of 26 bytes.
const TRANSFER: [u8; 52] = [
    0, 0, 0, 0x34, 2, 0, 0, 0, 0, 0x53, 0x14, 0xc0, 0x0d, 5, 0x52, 3, 0x52, 7, 0xa0, 4, 1, 2, 3, 4,
    0x43, 0x41, 0, 0x53, 0x75, 0xa0, 0x15, 0x6c, 0x61, 0x6e, 0x65, 0x20, 0x34, 0x20, 0x70, 0x72,
    0x65, 0x73, 0x73, 0x65, 0x73, 0x20, 0x30, 0x30, 0x30, 0x32, 0x31, 0x37,
];

fn size(answer: Result<usize, Refusal>) -> u64 {
    match answer {
        Ok(n) => n as u64,
        Err(refusal) => u64::from(refusal.number()),
    }
}

// A Transfer is written. Nothing is added to its bytes, but the compiler cannot know that, and so not write it beforehand.
pub(crate) fn writes(rounds: u64, out: &mut [u8]) -> u64 {
    let mut frame = TRANSFER;
    for byte in frame.iter_mut() {
        *byte = byte.wrapping_add((rounds >> 56) as u8);
    }
    sum_of(rounds, || size(session_frame::write(&frame, 255, 512, out)))
}
