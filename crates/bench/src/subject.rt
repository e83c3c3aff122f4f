// What the operations are done on: an engine, whose events they are, or a connection, whose calls.
use connection::{Connection, TickAnswer};
use endpoint::FrameAnswer;
use engine::ConnectionEngine;
use octets::Refusal;

// Each method does what its name says, and leaves the connection or the engine as it is afterwards.
pub(crate) trait Subject: Copy + Drop {
    fn receive(
        &mut self,
        tables: &mut [u8],
        frame: &[u8],
        out: &mut [u8],
    ) -> Result<FrameAnswer, Refusal>;

    fn allocate(&mut self, tables: &mut [u8], handle: u32) -> Result<u16, Refusal>;

    fn deallocate(&mut self, tables: &mut [u8], channel: u16) -> Result<u32, Refusal>;

    fn tick(&mut self, out: &mut [u8]) -> Result<TickAnswer, Refusal>;

    // How many sessions it has.
    fn sessions(&self) -> u32;
}

impl Subject for Connection {
    fn receive(
        &mut self,
        tables: &mut [u8],
        frame: &[u8],
        _out: &mut [u8],
    ) -> Result<FrameAnswer, Refusal> {
        let received = self.receive_frame(tables, frame, 0);
        *self = received.connection;
        received.answer
    }

    fn allocate(&mut self, tables: &mut [u8], handle: u32) -> Result<u16, Refusal> {
        let allocated = self.allocate_session(tables, handle);
        *self = allocated.connection;
        allocated.answer
    }

    fn deallocate(&mut self, tables: &mut [u8], channel: u16) -> Result<u32, Refusal> {
        let freed = self.deallocate_session(tables, channel);
        *self = freed.connection;
        freed.answer
    }

    fn tick(&mut self, out: &mut [u8]) -> Result<TickAnswer, Refusal> {
        let connection = *self;
        let ticked = Connection::tick(connection, out);
        *self = ticked.connection;
        ticked.answer
    }

    fn sessions(&self) -> u32 {
        self.taken_count()
    }
}

// No session frame ever waits.
impl Subject for ConnectionEngine {
    fn receive(
        &mut self,
        tables: &mut [u8],
        frame: &[u8],
        out: &mut [u8],
    ) -> Result<FrameAnswer, Refusal> {
        let received = self.on_incoming(tables, frame, 0, b"", out);
        *self = received.engine;
        received.answer
    }

    fn allocate(&mut self, tables: &mut [u8], handle: u32) -> Result<u16, Refusal> {
        let allocated = self.on_allocate(tables, handle);
        *self = allocated.engine;
        allocated.answer
    }

    fn deallocate(&mut self, tables: &mut [u8], channel: u16) -> Result<u32, Refusal> {
        let freed = self.on_deallocate(tables, channel);
        *self = freed.engine;
        freed.answer
    }

    fn tick(&mut self, out: &mut [u8]) -> Result<TickAnswer, Refusal> {
        let ticked = self.on_heartbeat(out);
        *self = ticked.engine;
        ticked.answer
    }

    fn sessions(&self) -> u32 {
        self.connection().taken_count()
    }
}
