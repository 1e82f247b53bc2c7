// Which words of the pools a record's call is lent (tests/CALLS.md, Lent codes).
ghost use Rattle.std.specs.Prelude.{◌<◌};

use crate::pool::Span;
use crate::script::Record;

// How many words a call is lent: by the right length, or as many of the other pool.
#[derive(Clone, Copy, Debug, PartialEq, Eq)]
pub enum Lent {
    OneFewer,
    Nothing,
    OfTheOther,
    OneMore,
    Right,
}

impl From<u8> for Lent {
    fn from(code: u8) -> Lent {
        match code {
            1 => Lent::OneFewer,
            2 => Lent::Nothing,
            3 => Lent::OfTheOther,
            4 => Lent::OneMore,
            _ => Lent::Right,
        }
    }
}

// Whether the words a record lends are of the setpoint pool.
pub fn is_of_setpoints(record: Record) -> bool {
    record.kind.takes_setpoints() != (Lent::from(record.lent) == Lent::OfTheOther)
}

// How many words a record lends, on a board of these depths; a pool that has fewer lends all it has.
pub fn length_of(record: Record, n: u32, m: u32) -> usize {
    let right = if record.kind.takes_setpoints() {
        n as usize * 64
    } else {
        m as usize * 8
    };
    match Lent::from(record.lent) {
        Lent::OneFewer => right.saturating_sub(1),
        Lent::Nothing => 0,
        Lent::OneMore => right + 1,
        Lent::OfTheOther | Lent::Right => right,
    }
}

// The two buffers that a retired call or a portion is lent.
#[derive(Clone, Copy, Debug, PartialEq, Eq)]
pub enum Buffers {
    FirstShort,
    Empty,
    OfTheNext,
    SecondShort,
    Swapped,
    FirstLong,
    PartedEarly,
    Own,
}

impl From<u8> for Buffers {
    fn from(code: u8) -> Buffers {
        match code {
            1 => Buffers::FirstShort,
            2 => Buffers::Empty,
            3 => Buffers::OfTheNext,
            4 => Buffers::SecondShort,
            5 => Buffers::Swapped,
            6 => Buffers::FirstLong,
            7 => Buffers::PartedEarly,
            _ => Buffers::Own,
        }
    }
}

// A channel's place from 0; 0 for a number that is no channel's.
fn place_of(channel: u8) -> usize
    ensures { result < 4 }
{
    if (1..=4).contains(&channel) {
        usize::from(channel) - 1
    } else {
        0
    }
}

impl Buffers {
    // The first and the second, on a board of this depth.
    pub fn spans(self, m: u32, channel: u8) -> (Span, Span) {
        let depth = m as usize;
        let short = depth.saturating_sub(1);
        let place = place_of(channel);
        let own = 2 * depth * place;
        let half = own + depth;
        let next = 2 * depth * ((place + 1) % 4);
        match self {
            Buffers::FirstShort => (Span::new(own, short), Span::new(half, depth)),
            Buffers::Empty => (Span::new(own, 0), Span::new(half, 0)),
            Buffers::OfTheNext => (Span::new(next, depth), Span::new(next + depth, depth)),
            Buffers::SecondShort => (Span::new(own, depth), Span::new(half, short)),
            Buffers::Swapped => (Span::new(half, depth), Span::new(own, depth)),
            Buffers::FirstLong => (Span::new(own, depth + 1), Span::new(half, depth)),
            Buffers::PartedEarly => (Span::new(own, short), Span::new(own + short, depth + 1)),
            Buffers::Own => (Span::new(own, depth), Span::new(half, depth)),
        }
    }
}
