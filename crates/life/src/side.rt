// An end of the connection and its calls, each with its line.
use crate::answers::{Answer, Channels, Refused};
use crate::call::Call;
use crate::lent::{self, Lent};
use connection::{Connection, Sent};
use endpoint::Role;
use frame_encoder::{ErrorText, Settings};
use octets::Refusal;
use std::io;

// An end: the connection, and its tables and the output that it is lent, arrays that `play` holds.
#[derive(Drop)]
pub(crate) struct Side<'a> {
    connection: Connection,
    tables: &'a mut [u8],
    out: &'a mut [u8],
}

// A word, left-aligned. It is printed byte by byte, since it need be no text.
fn column(rt: &impl Print, word: &[u8], width: usize) -> io::Result<()> {
    let blanks = width.saturating_sub(word.len());
    rt.write_all(word)?;
    print!(rt; "{:blanks$}", "")
}

// The number in two bytes; a small one where there are not two.
fn number(bytes: &[u8], small: u16) -> u16 {
    match bytes {
        [high, low] => u16::from_be_bytes([*high, *low]),
        _ => small,
    }
}

impl<'a> Side<'a> {
    // Before a script's first calls there is a dialler with no name on both sides.
    pub(crate) fn new(tables: &'a mut [u8], out: &'a mut [u8]) -> Result<Self, Refusal> {
        let settings = Settings {
            container_id: b"",
            max_frame_size: 512,
            channel_max: 0,
            idle_time_out: None,
        };
        let connection = Connection::dialler(&settings, tables)?;
        Ok(Side {
            connection,
            tables,
            out,
        })
    }

    // The rest of a call's line: the state afterwards, what the call was lent, and the answer.
    fn tell(
        &self,
        rt: &impl Print,
        lent: Lent<'_>,
        answer: Result<Answer, Refusal>,
    ) -> io::Result<()> {
        let state = lent::state(self.connection.state());
        match answer {
            Ok(answer) => println!(rt; "{state:<16}{lent}{answer}"),
            Err(refusal) => println!(rt; "{state:<16}{lent}{}", Refused(refusal)),
        }
    }

    // A connection that was made, or the one from before where it was refused.
    fn made(
        &mut self,
        rt: &impl Print,
        new: Result<Connection, Refusal>,
        size: u16,
    ) -> io::Result<()> {
        if let Ok(connection) = new {
            self.connection = connection;
        }
        let answer = new.map(|_| Answer::SettingsTaken);
        self.tell(rt, Lent::Size(size), answer)
    }

    fn dialler(&mut self, rt: &impl Print, size: u16, channel_max: u16) -> io::Result<()> {
        let settings = Settings {
            container_id: b"pad",
            max_frame_size: u32::from(size),
            channel_max,
            idle_time_out: None,
        };
        let new = Connection::dialler(&settings, self.tables);
        self.made(rt, new, size)
    }

    fn listener(&mut self, rt: &impl Print, size: u16, channel_max: u16) -> io::Result<()> {
        let settings = Settings {
            container_id: b"hub",
            max_frame_size: u32::from(size),
            channel_max,
            idle_time_out: Some(30000),
        };
        let new = Connection::listener(&settings, self.tables);
        self.made(rt, new, size)
    }

    fn receive_header(&mut self, rt: &impl Print, bytes: &[u8]) -> io::Result<()> {
        let received = self.connection.receive_header(bytes);
        self.connection = received.connection;
        let answer = received.answer.map(Answer::Header);
        self.tell(rt, Lent::Header(bytes), answer)
    }

    fn receive_frame(&mut self, rt: &impl Print, bytes: &[u8], spare: u16) -> io::Result<()> {
        let received = self
            .connection
            .receive_frame(self.tables, bytes, u32::from(spare));
        self.connection = received.connection;
        let answer = received.answer.map(Answer::Frame);
        self.tell(rt, Lent::Frame(bytes), answer)
    }

    // Takes channels for so many sessions, or for one, whose handles go up by one, and tells of the last.
    fn allocate_sessions(&mut self, rt: &impl Print, handle: u16, count: u16) -> io::Result<()> {
        let last = u32::from(handle) + u32::from(count.saturating_sub(1));
        for before in u32::from(handle)..last {
            let allocated = self.connection.allocate_session(self.tables, before);
            self.connection = allocated.connection;
        }
        let allocated = self.connection.allocate_session(self.tables, last);
        self.connection = allocated.connection;
        let answer = allocated.answer.map(Answer::Allocated);
        self.tell(rt, Lent::Handle(last), answer)
    }

    fn deallocate_session(&mut self, rt: &impl Print, channel: u16) -> io::Result<()> {
        let freed = self.connection.deallocate_session(self.tables, channel);
        self.connection = freed.connection;
        let answer = freed.answer.map(Answer::Freed);
        self.tell(rt, Lent::Channel(channel), answer)
    }

    fn limits(&self, rt: &impl Print) -> io::Result<()> {
        let answer = Answer::Limits {
            reading: self.connection.reading_limit(),
            writing: self.connection.writing_limit(),
            agreed: self.connection.agreed_channel_max(),
        };
        self.tell(rt, Lent::Nothing, Ok(answer))
    }

    // Of so many channels from the first on, or of eight.
    fn channels(&self, rt: &impl Print, first: u16, most: u16) -> io::Result<()> {
        let state = lent::state(self.connection.state());
        let channels = Channels {
            connection: self.connection,
            tables: self.tables,
            first,
            count: if most == 0 { 8 } else { most },
        };
        println!(rt; "{state:<16}{channels}")
    }

    fn send_session_frame(&mut self, rt: &impl Print, bytes: &[u8]) -> io::Result<()> {
        let sent = self
            .connection
            .send_session_frame(self.tables, bytes, self.out);
        self.connection = sent.connection;
        let answer = sent.answer.map(Answer::Wrote);
        self.tell(rt, Lent::Frame(bytes), answer)
    }

    // The output that is lent: so many bytes, or all where there are none or there are fewer.
    fn lend(&mut self, room: u16) -> &mut [u8] {
        let all = self.out.len();
        let lent = match usize::from(room) {
            0 => all,
            n => n.min(all),
        };
        &mut self.out[..lent]
    }

    // A call that sends something else than a session's frame.
    fn send<F: FnOnce(Connection, &mut [u8]) -> Sent>(
        &mut self,
        rt: &impl Print,
        room: u16,
        send: F,
    ) -> io::Result<()>
        requires { F.IsAlwaysCallable send }
    {
        let sent = send(self.connection, self.lend(room));
        self.connection = sent.connection;
        let answer = sent.answer.map(Answer::Wrote);
        self.tell(rt, Lent::Nothing, answer)
    }

    fn tick(&mut self, rt: &impl Print, room: u16) -> io::Result<()> {
        let connection = self.connection;
        let ticked = connection.tick(self.lend(room));
        self.connection = ticked.connection;
        let answer = ticked.answer.map(Answer::Ticked);
        self.tell(rt, Lent::Nothing, answer)
    }

    // The container-id of the end that dials, or of the one that listens.
    fn container_id(&self) -> &'static [u8] {
        match self.connection.role() {
            Role::Dialler => b"pad",
            Role::Listener => b"hub",
        }
    }

    fn run(&mut self, rt: &impl Print, call: Call, n: u16, bytes: &[u8]) -> io::Result<()> {
        match call {
            Call::Dialler => self.dialler(rt, n, number(bytes, 3)),
            Call::Listener => self.listener(rt, n, number(bytes, 7)),
            Call::ReceiveHeader => self.receive_header(rt, bytes),
            Call::ReceiveFrame => self.receive_frame(rt, bytes, n),
            Call::AllocateSessions => self.allocate_sessions(rt, n, number(bytes, 1)),
            Call::DeallocateSession => self.deallocate_session(rt, n),
            Call::Limits => self.limits(rt),
            Call::Channels => self.channels(rt, number(bytes, 0), n),
            Call::SendSessionFrame => self.send_session_frame(rt, bytes),
            Call::SendHeader => self.send(rt, n, |connection, out| connection.send_header(out)),
            Call::SendOpen => {
                let id = self.container_id();
                self.send(rt, n, |connection, out| connection.send_open(id, out))
            }
            Call::SendClose => self.send(rt, n, |connection, out| connection.send_close(out)),
            Call::SendCloseWithError => {
                let error = ErrorText {
                    condition: b"amqp:connection:forced",
                    description: Some(b"hub restarts"),
                };
                self.send(rt, n, |connection, out| {
                    connection.send_close_with_error(&error, out)
                })
            }
            Call::Tick => self.tick(rt, n),
        }
    }

    // A line: whose call, its name, a number, and bytes in hexadecimal, which are laid into a room. `<` stands for the other end's output.
    pub(crate) fn call(
        &mut self,
        rt: &impl Print,
        line: &[u8],
        other: &Side<'_>,
        room: &mut [u8],
    ) -> io::Result<()> {
        let mut parts = line.split(|b| *b == b' ').filter(|word| !word.is_empty());
        let side = parts.next().unwrap_or_default();
        let name = parts.next().unwrap_or_default();
        let n = (words::decimal(parts.next().unwrap_or_default()) % 65536) as u16;
        let text = parts.next().unwrap_or_default();
        column(rt, side, 6)?;
        column(rt, name, 24)?;
        if text.starts_with(b"<") {
            return self.run(rt, Call::from(name), n, other.out);
        }
        let filled = words::hex(text, room);
        self.run(
            rt,
            Call::from(name),
            n,
            room.get(..filled).unwrap_or_default(),
        )
    }
}
