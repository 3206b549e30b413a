// Pins and calls as words write them.
ghost use Rattle.std.specs.Prelude.{◌≡◌};
ghost use Rattle.requests.specs.Calls.{setting, pin_in, pin_by, call_in, named as call_named, with_argument as call_with_argument};

use rig::Call as RigCall;
use service::Call as SearchCall;
use words::{Reading, halves};

// A pin fixes a cell, counted from 1, to a value. Any two numbers, since the search asks whether they will do. A call that sets a
// pin has the same two, but a list of pins holds no other call, so this is a type of its own.
#[derive(Clone, Copy)]
pub struct Pin {
    pub cell: u32,
    pub value: u32,
}

// A call on a search, or on a rig.
#[derive(Clone, Copy)]
pub enum AnyCall {
    Search(SearchCall),
    Rig(RigCall),
}

// A pin asks a search to set it.
impl From<Pin> for AnyCall {
    ghost from_gives = { λ pin call. call ≡ setting pin };

    fn from(pin: Pin) -> AnyCall {
        let Pin { cell, value } = pin;
        AnyCall::Search(SearchCall::Pin { cell, value })
    }
}

// CELL=VALUE
impl Reading for Pin {
    ghost read = { pin_in };

    fn read(word: &[u8]) -> Option<Pin> {
        let (cell, value) = halves(word)?;
        pin_of(cell, value)
    }
}

// A name, or a name or a cell with an equals sign and a number.
impl Reading for AnyCall {
    ghost read = { call_in };

    fn read(word: &[u8]) -> Option<AnyCall> {
        match halves(word) {
            Some((name, argument)) => with_argument(name, argument),
            None => named(word),
        }
    }
}

fn pin_of(cell: &[u8], value: &[u8]) -> Option<Pin>
    ensures { result ≡ pin_by cell.now value.now }
{
    Some(Pin {
        cell: u32::read(cell)?,
        value: u32::read(value)?,
    })
}

fn named(word: &[u8]) -> Option<AnyCall>
    ensures { result ≡ call_named word.now }
{
    match word {
        b"count" => Some(AnyCall::Search(SearchCall::Count)),
        b"next" => Some(AnyCall::Search(SearchCall::Next)),
        b"rewind" => Some(AnyCall::Search(SearchCall::Rewind)),
        b"step" => Some(AnyCall::Rig(RigCall::Step)),
        b"show" => Some(AnyCall::Rig(RigCall::Show)),
        b"clock" => Some(AnyCall::Rig(RigCall::Clock)),
        _ => None,
    }
}

fn with_argument(name: &[u8], argument: &[u8]) -> Option<AnyCall>
    ensures { result ≡ call_with_argument name.now argument.now }
{
    match name {
        b"unpin" => u32::read(argument).map(|cell| AnyCall::Search(SearchCall::Unpin { cell })),
        b"seed" => u32::read(argument).map(|word| AnyCall::Rig(RigCall::Seed(word))),
        b"jump" => u64::read(argument).map(|length| AnyCall::Rig(RigCall::Jump(length))),
        _ => pin_of(name, argument).map(AnyCall::from),
    }
}
