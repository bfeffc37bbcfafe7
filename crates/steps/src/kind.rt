// The kinds of entries.
ghost use Rattle.std.specs.Prelude.{◌≡◌};
ghost use Rattle.std.specs.Option.{ok_or};
ghost use Rattle.steps.specs.Kinds.{IsKindOf, kind_number, kind_of, kind_name, first_named, kind_named};
ghost use Rattle.steps.specs.declared.kind.UnknownName.{UnknownName};

use protocol::call::Call;
use std::str::FromStr;

// An entry's first byte is the number of its kind.
#[derive(Clone, Copy, Debug, PartialEq, Eq)]
pub enum EntryKind {
    SetUp = 0,
    Open = 1,
    Read = 2,
    Write = 3,
    Abandon = 4,
    Commit = 5,
    Send = 6,
    Poll = 7,
    Take = 8,
    Check = 9,
    Trim = 10,
}

// All kinds, by their numbers.
const KINDS: [EntryKind; 11] = [
    EntryKind::SetUp,
    EntryKind::Open,
    EntryKind::Read,
    EntryKind::Write,
    EntryKind::Abandon,
    EntryKind::Commit,
    EntryKind::Send,
    EntryKind::Poll,
    EntryKind::Take,
    EntryKind::Check,
    EntryKind::Trim,
];

impl EntryKind {
    // The name of the kind in a text.
    pub fn name(self) -> &'static str
        ensures { result.now ≡ kind_name self }
    {
        match self {
            EntryKind::SetUp => "setup",
            EntryKind::Open => "open",
            EntryKind::Read => "read",
            EntryKind::Write => "write",
            EntryKind::Abandon => "abandon",
            EntryKind::Commit => "commit",
            EntryKind::Send => "send",
            EntryKind::Poll => "poll",
            EntryKind::Take => "take",
            EntryKind::Check => "check",
            EntryKind::Trim => "trim",
        }
    }
}

impl From<Call> for EntryKind {
    ghost from_gives = { λ call r. r ≡ kind_of call };

    fn from(call: Call) -> EntryKind {
        match call {
            Call::Open(_) => EntryKind::Open,
            Call::Read(_, _) => EntryKind::Read,
            Call::Write(_, _, _) => EntryKind::Write,
            Call::Abandon(_) => EntryKind::Abandon,
            Call::Commit(_) => EntryKind::Commit,
            Call::Send(_) => EntryKind::Send,
            Call::Poll(_, _) => EntryKind::Poll,
            Call::Take(_, _) => EntryKind::Take,
            Call::Check(_) => EntryKind::Check,
            Call::Trim(_, _) => EntryKind::Trim,
        }
    }
}

impl From<EntryKind> for u8 {
    ghost from_gives = { λ kind r. r ≡ kind_number kind };

    fn from(kind: EntryKind) -> u8 {
        kind as u8
    }
}

// A number that no kind has.
#[derive(Clone, Copy, Debug, PartialEq, Eq)]
pub struct UnknownKind(pub u8);

impl TryFrom<u8> for EntryKind {
    type Error = UnknownKind;

    ghost try_from_gives = { IsKindOf };

    fn try_from(number: u8) -> Result<Self, UnknownKind> {
        match number {
            0 => Ok(EntryKind::SetUp),
            1 => Ok(EntryKind::Open),
            2 => Ok(EntryKind::Read),
            3 => Ok(EntryKind::Write),
            4 => Ok(EntryKind::Abandon),
            5 => Ok(EntryKind::Commit),
            6 => Ok(EntryKind::Send),
            7 => Ok(EntryKind::Poll),
            8 => Ok(EntryKind::Take),
            9 => Ok(EntryKind::Check),
            10 => Ok(EntryKind::Trim),
            _ => Err(UnknownKind(number)),
        }
    }
}

// A name that no kind has.
#[derive(Clone, Copy, Debug, PartialEq, Eq)]
pub struct UnknownName;

// The first of the kinds that has the name.
#[tactic(auto, unfolding(crate::specs::Kinds::first_named))]
fn named(kinds: &[EntryKind], name: &str) -> Option<EntryKind>
    ensures { result ≡ first_named kinds.now name.now }
{
    kinds.iter().copied().find(|kind| kind.name() == name)
}

impl FromStr for EntryKind {
    type Err = UnknownName;

    ghost from_str_gives = { λ name r. r ≡ ok_or (kind_named name) (record {}) };

    fn from_str(name: &str) -> Result<Self, UnknownName> {
        named(&KINDS, name).ok_or(UnknownName)
    }
}
