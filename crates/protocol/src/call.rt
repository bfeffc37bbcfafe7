// The ten calls and what they answer.
ghost use Rattle.std.specs.Prelude.{◌≡◌};
ghost use Rattle.protocol.specs.Call.{answered};

// A coordinator first, then a machine or an address, then a value.
#[derive(Clone, Copy, Debug, PartialEq, Eq)]
pub enum Call {
    Open(u8),
    Read(u8, u16),
    Write(u8, u16, u64),
    Abandon(u8),
    Commit(u8),
    Send(u8),
    Poll(u8, u8),
    Take(u8, u8),
    Check(u8),
    Trim(u8, u8),
}

// Whether a call reports the end of its transaction.
#[derive(Clone, Copy, Debug, PartialEq, Eq)]
pub enum Outcome {
    Going = 0,
    Committed = 1,
    Aborted = 2,
}

// What an accepted call answers: two numbers, whatever the call, as they are printed. A kind, a machine, a version or a yes
// is its number here.
#[derive(Clone, Copy, Debug, PartialEq, Eq)]
pub struct Answer {
    pub first: u64,
    pub second: u64,
    pub outcome: Outcome,
}

impl Answer {
    pub fn new(first: u64, second: u64, outcome: Outcome) -> Answer
        ensures { result ≡ answered first second outcome }
    {
        Answer {
            first,
            second,
            outcome,
        }
    }
}

// Why a call was turned back.
#[derive(Clone, Copy, Debug, PartialEq, Eq)]
pub enum Refusal {
    BadPlan = 1,
    BadTables = 2,
    NoCoordinator = 3,
    NoMachine = 4,
    WrongPhase = 5,
    NoAddress = 6,
    TooMany = 7,
    NotRead = 8,
    UsedUp = 9,
    NoRoom = 10,
    Nothing = 11,
}
