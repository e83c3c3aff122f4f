// A hub with sessions, as the operations find it, and the frames that are handed to it.
use crate::operations::Room;
use engine::ConnectionEngine;
use frame_encoder::Settings;
use octets::Refusal;

// An Open of container-id pad, max-frame-size 4,096, channel-max 2,047 and idle-time-out 30,000. The idle-time-out's last byte is at place 32.
pub(crate) const OPEN: [u8; 33] = [
    0, 0, 0, 33, 2, 0, 0, 0, 0x00, 0x53, 0x10, 0xc0, 0x14, 0x05, 0xa1, 0x03, 0x70, 0x61, 0x64,
    0x40, 0x70, 0x00, 0x00, 0x10, 0x00, 0x60, 0x07, 0xff, 0x70, 0x00, 0x00, 0x75, 0x30,
];

const BEGIN: [u8; 20] = [
    0, 0, 0, 20, 2, 0, 0, 0, 0x00, 0x53, 0x11, 0xc0, 0x07, 0x04, 0x40, 0x43, 0x52, 0x64, 0x52, 0x64,
];

// A Transfer of a message of one value.
pub(crate) const TRANSFER: [u8; 26] = [
    0, 0, 0, 26, 2, 0, 0, 0, 0x00, 0x53, 0x14, 0xc0, 0x08, 0x05, 0x43, 0x43, 0xa0, 0x01, 0x00,
    0x43, 0x42, 0x00, 0x53, 0x77, 0x52, 0x01,
];

// Sets a frame's channel.
pub(crate) fn set_channel(frame: &mut [u8], channel: u16) {
    octets::put_number(frame, 6, 2, u64::from(channel));
}

// Sets the last byte.
pub(crate) fn set_last(frame: &mut [u8], b: u8) {
    if let Some(last) = frame.last_mut() {
        *last = b;
    }
}

// The channel-max of the hub. Its tables have a place for each channel.
const CHANNEL_MAX: u16 = 2047;

// A new hub.
pub(crate) fn hub(tables: &mut [u8]) -> Result<ConnectionEngine, Refusal> {
    let settings = Settings {
        container_id: b"hub",
        max_frame_size: 16384,
        channel_max: CHANNEL_MAX,
        idle_time_out: None,
    };
    ConnectionEngine::listener(&settings, tables)
}

// A hub whose headers are exchanged, and which waits for the pad's Open.
pub(crate) fn exchanged(fresh: ConnectionEngine, out: &mut [u8]) -> ConnectionEngine {
    let sent = fresh.send_header(out);
    let waiting = sent.engine;
    let received = waiting.receive_header(&[0x41, 0x4d, 0x51, 0x50, 0, 1, 0, 0]);
    received.engine
}

fn opened(fresh: ConnectionEngine, room: &mut Room<'_>) -> ConnectionEngine {
    let waiting = exchanged(fresh, room.out);
    let received = waiting.on_incoming(room.tables, &OPEN, 0, b"", room.out);
    let answering = received.engine;
    let sent = answering.send_open(b"hub", room.out);
    sent.engine
}

// A hub with a session on each channel from 0 to the last. The handles are 1000 and on.
pub(crate) fn with_sessions(
    fresh: ConnectionEngine,
    last: u16,
    room: &mut Room<'_>,
) -> ConnectionEngine {
    let mut hub = opened(fresh, room);
    let mut frame = BEGIN;
    for channel in 0..=last {
        set_channel(&mut frame, channel);
        let handle = 1000 + u32::from(channel);
        let received = hub.on_incoming(room.tables, &frame, handle, b"", room.out);
        hub = received.engine;
    }
    hub
}
