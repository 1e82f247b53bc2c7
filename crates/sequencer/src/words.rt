// What a setpoint word asks for, and what its sending brings about.
ghost use Rattle.std.specs.Prelude.{◌≡◌, ◌<◌};
ghost use Rattle.sequencer.specs.Words.{at_end, kind_of, stage_after, index_after, condition_of};
ghost use Rattle.sequencer.specs.Transmissions.{condition_number};
ghost use Rattle.status.specs.Bits.{bit_at};

use crate::{Kind, Stage};
use status::Condition;

// Whether an index is the buffer's last, or past it.
pub(crate) fn at_end(n: u32, index: u32) -> bool
    ensures { result ≡ at_end n index }
{
    u64::from(n) <= u64::from(index) + 1
}

// A bit of a word.
fn has_bit(word: u32, bit: u8) -> bool
    requires { bit < 32 }
    ensures { result ≡ bit_at word bit }
{
    (word >> bit) % 2 == 1
}

impl Kind {
    // What kind of word it is; the word at the buffer's end is last.
    pub(crate) fn of(word: u32, end: bool) -> Kind
        ensures { result ≡ kind_of word end }
    {
        if end || has_bit(word, 31) {
            Kind::Last
        } else if has_bit(word, 16) {
            Kind::Pause(1)
        } else if has_bit(word, 17) {
            Kind::Pause(2)
        } else if has_bit(word, 18) {
            Kind::Pause(3)
        } else if has_bit(word, 19) {
            Kind::Pause(4)
        } else if has_bit(word, 20) {
            Kind::Pause(0)
        } else {
            Kind::Plain
        }
    }

    // The stage once such a word is sent.
    pub(crate) fn stage_after(self) -> Stage
        ensures { result ≡ stage_after self }
    {
        match self {
            Kind::Plain => Stage::Running,
            Kind::Pause(pause) => Stage::Paused(pause),
            Kind::Last => Stage::Ended,
        }
    }

    // The index due once such a word is sent.
    pub(crate) fn index_after(self, index: u32) -> u32
        requires { index_after self index < 4294967296 }
        ensures { result ≡ index_after self index }
    {
        match self {
            Kind::Plain | Kind::Pause(_) => index + 1,
            Kind::Last => index,
        }
    }

    // The condition that the first sending of such a word latches.
    pub(crate) fn condition(self) -> Option<Condition>
        ensures { condition_number result ≡ condition_of self }
    {
        match self {
            Kind::Plain => None,
            Kind::Pause(pause) => Some(Condition::Pause(pause)),
            Kind::Last => Some(Condition::EndOfFunction),
        }
    }
}
