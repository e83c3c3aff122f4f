// The kinds of answers that C is told, and their numbers.
ghost use Rattle.std.specs.Prelude.{◌≡◌};
ghost use Rattle.hisproat.specs.Promises.{kind_number};

// What the connection's call inside an event answered.
#[derive(Clone, Copy, Debug, PartialEq, Eq)]
pub(crate) enum Kind {
    NoCall,
    Refused,
    Wrote,
    End,
    Header,
    OtherProtocol,
    NothingToDo,
    Opened,
    Closed,
    Forward,
    Began,
    Channel,
    Freed,
}

impl Kind {
    // The number that C is told
    pub(crate) fn number(self) -> u8
        ensures { result ≡ kind_number self }
    {
        self as u8
    }
}
