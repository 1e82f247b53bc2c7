// The signed code that 16 bits of data stand for, and its voltage.
#![tactic(auto)]

ghost use Rattle.std.specs.Prelude.{◌≡◌};
ghost use Rattle.codes.specs.Codes.{code_of};
ghost use Rattle.codes.specs.Voltage.{voltage_of};

// Two's complement.
pub fn code(word: u16) -> i32
    ensures { result ≡ code_of word }
{
    i32::from(word.cast_signed())
}

// Exactly the code × 10 / 32,768: no step rounds.
#[tactic(auto, unfolding(crate::specs::Voltage::voltage_of))]
pub fn volts(word: u16) -> f64
    ensures { result ≡ voltage_of word }
{
    f64::from(code(word)) * 10.0 / 32768.0
}
