// The protocol header, by which the two ends of a connection agree on what they speak (Part 2, section 2.2).
#![tactic(auto)]

ghost use Rattle.std.specs.Prelude.{◌≡◌};
ghost use Rattle.octets.specs.Output.{Wrote};
ghost use Rattle.protocol_header.specs.Header.{protocol_id, is_amqp100, received, version100, has_id, header_bytes, write_header};
ghost use Rattle.protocol_header.specs.Answers.{id_number, header_of, id_says, header_says};

use octets::Refusal;

// "AMQP"
const PROTOCOL_HEADER_PREFIX: [u8; 4] = [0x41, 0x4D, 0x51, 0x50];

// The room that a call asks of its lent output before it writes.
const OUTPUT_ROOM: usize = 16384;

// Protocol ID
#[derive(Clone, Copy, Debug, PartialEq, Eq)]
pub enum ProtocolId {
    Amqp,
    Tls,
    Sasl,
}

// A byte of the wire that is no protocol id.
#[derive(Clone, Copy, Debug, PartialEq, Eq)]
pub struct UnknownProtocolId;

// Protocol header
#[derive(Clone, Copy)]
pub struct ProtocolHeader {
    pub id: ProtocolId,
    pub major: u8,
    pub minor: u8,
    pub revision: u8,
}

// What a header is: that of AMQP 1.0.0, or that of another protocol or version.
#[derive(Clone, Copy)]
pub enum HeaderRead {
    Amqp,
    Other(ProtocolHeader),
}

// The number of a protocol id on the wire.
impl From<ProtocolId> for u8 {
    ghost from_gives = { λ id n. n ≡ id_number id };

    fn from(id: ProtocolId) -> u8 {
        match id {
            ProtocolId::Amqp => 0,
            ProtocolId::Tls => 2,
            ProtocolId::Sasl => 3,
        }
    }
}

// The protocol id that a byte of the wire is.
impl TryFrom<u8> for ProtocolId {
    type Error = UnknownProtocolId;

    ghost try_from_gives = { λ n r. id_says r ≡ protocol_id n };

    fn try_from(n: u8) -> Result<ProtocolId, UnknownProtocolId> {
        match n {
            0 => Ok(ProtocolId::Amqp),
            2 => Ok(ProtocolId::Tls),
            3 => Ok(ProtocolId::Sasl),
            _ => Err(UnknownProtocolId),
        }
    }
}

impl ProtocolHeader {
    // The version that the constructors give
    pub const MAJOR: u8 = 1;

    pub const MINOR: u8 = 0;

    pub const REVISION: u8 = 0;

    // Creates a new protocol header
    pub fn new(id: ProtocolId, major: u8, minor: u8, revision: u8) -> Self
        ensures { header_of result ≡ record { id = id_number id; major = major; minor = minor; revision = revision } }
    {
        Self {
            id,
            major,
            minor,
            revision,
        }
    }

    // Creates an AMQP protocol header
    pub fn amqp() -> Self
        ensures { header_of result ≡ version100 0 }
    {
        Self::new(ProtocolId::Amqp, Self::MAJOR, Self::MINOR, Self::REVISION)
    }

    // Creates a TLS protocol header
    pub fn tls() -> Self
        ensures { header_of result ≡ version100 2 }
    {
        Self::new(ProtocolId::Tls, Self::MAJOR, Self::MINOR, Self::REVISION)
    }

    // Creates a SASL protocol header
    pub fn sasl() -> Self
        ensures { header_of result ≡ version100 3 }
    {
        Self::new(ProtocolId::Sasl, Self::MAJOR, Self::MINOR, Self::REVISION)
    }

    fn has_id(self, n: u8) -> bool
        ensures { result ≡ has_id n (header_of self) }
    {
        let id = self.id;
        u8::from(id) == n
    }

    // Returns whether the protocol id is AMQP
    pub fn is_amqp(self) -> bool
        ensures { result ≡ has_id 0 (header_of self) }
    {
        self.has_id(0)
    }

    // Returns whether the protocol id is TLS
    pub fn is_tls(self) -> bool
        ensures { result ≡ has_id 2 (header_of self) }
    {
        self.has_id(2)
    }

    // Returns whether the protocol id is SASL
    pub fn is_sasl(self) -> bool
        ensures { result ≡ has_id 3 (header_of self) }
    {
        self.has_id(3)
    }

    // Returns whether this is the header of AMQP 1.0.0
    pub fn is_amqp100(self) -> bool
        ensures { result ≡ is_amqp100 (header_of self) }
    {
        if !self.is_amqp() {
            return false;
        }
        if self.major != Self::MAJOR {
            return false;
        }
        if self.minor != Self::MINOR {
            return false;
        }
        if self.revision != Self::REVISION {
            return false;
        }
        true
    }

    // The header's bytes on the wire
    pub fn bytes(self) -> [u8; 8]
        ensures { result ≡ header_bytes (header_of self) }
    {
        let id = self.id;
        [
            PROTOCOL_HEADER_PREFIX[0],
            PROTOCOL_HEADER_PREFIX[1],
            PROTOCOL_HEADER_PREFIX[2],
            PROTOCOL_HEADER_PREFIX[3],
            u8::from(id),
            self.major,
            self.minor,
            self.revision,
        ]
    }
}

// Reads the header that the bytes start with. Those after the eighth are not looked at.
pub fn read(s: &[u8]) -> Result<HeaderRead, Refusal>
    ensures { header_says result ≡ received s.now }
{
    if s.len() < 8 {
        return Err(Refusal::BytesMissing);
    }
    if !s.starts_with(&PROTOCOL_HEADER_PREFIX) {
        return Err(Refusal::HeaderMalformed);
    }
    let Ok(id) = ProtocolId::try_from(s[4]) else {
        return Err(Refusal::HeaderMalformed);
    };
    let h = ProtocolHeader::new(id, s[5], s[6], s[7]);
    if h.is_amqp100() {
        return Ok(HeaderRead::Amqp);
    }
    Ok(HeaderRead::Other(h))
}

// Writes the header to the front of the lent output. Its other bytes stay as they are.
pub fn write(h: ProtocolHeader, out: &mut [u8]) -> Result<usize, Refusal>
    ensures { Wrote (write_header (header_of h) out.old) result out.old out.new }
{
    if out.len() < OUTPUT_ROOM {
        return Err(Refusal::NoRoom);
    }
    let bytes = h.bytes();
    octets::copy(out, 0, &bytes);
    Ok(8)
}
