// A channel's status: what is enabled, and two copies of the latched conditions, each with the channel's bit in the Main status of that copy.
#![tactic(auto)]

ghost use Rattle.std.specs.Prelude.{◌≡◌, ◌+◌, ◌*◌, ◌<◌, ◌≤◌};
ghost use Rattle.status.specs.Bits.{bit_at, bit_of, word_of_bits};
ghost use Rattle.status.specs.Latching.{none, latched_in, cleared_in, taken_in, opened, condition_bit, latched, kept_enable, enabled, reset};

// What the channel status latches as it happens: pauses 1 to 4, and 0 for the VME pause.
#[derive(Clone, Copy, Debug, PartialEq, Eq)]
pub enum Condition {
    Run,
    EndOfFunction,
    GroupEnd,
    EarlyEnd,
    Pause(u8),
    MissingReadback,
    CrcError,
}

// One copy of the status (Interrupt or Polling): the latched conditions, and the channel's bit in Main's status of the same name.
#[derive(Clone, Copy, Debug, PartialEq, Eq)]
pub struct Latches {
    pub bits: [bool; 16],
    pub main: bool,
}

#[derive(Clone, Copy, Debug, PartialEq, Eq)]
pub struct Status {
    pub enable: u16,
    pub interrupt: Latches,
    pub polling: Latches,
}

// Whether a bit of a word is set.
pub fn is_set(word: u16, bit: u32) -> bool
    ensures { result ≡ bit_at word bit }
{
    bit < 16 && (word >> bit) & 1 == 1
}

// A bit at its weight.
pub fn weigh(bit: bool, weight: u32) -> u32
    ensures weighed { result ≡ bit_of bit * weight }
    ensures bound { result ≤ weight }
{
    if bit { weight } else { 0 }
}

// The word of sixteen bits, the first of which is D0.
#[tactic(auto, using(crate::proofs::Words::below_none, crate::proofs::Words::below_push, crate::proofs::Words::below_end))]
pub fn word_of_bits(bits: [bool; 16]) -> u16
    ensures { result ≡ word_of_bits bits }
{
    let mut word = 0;
    for &bit in bits.iter().rev() {
        word = 2 * word + u16::from(bit);
    }
    word
}

// What an enable register keeps of a word written: D3 is dropped.
#[tactic(auto, using(crate::proofs::Words::without_bit_3))]
pub fn kept_enable(value: u16) -> u16
    ensures { result ≡ kept_enable value }
{
    value & 0xfff7
}

impl Condition {
    // Its bit.
    pub fn bit(self) -> u32
        ensures { result ≡ condition_bit self }
    {
        match self {
            Condition::Run => 15,
            Condition::EndOfFunction => 14,
            Condition::GroupEnd => 13,
            Condition::EarlyEnd => 12,
            Condition::Pause(pause) => 7 + u32::from(pause),
            Condition::MissingReadback => 4,
            Condition::CrcError => 2,
        }
    }
}

impl Latches {
    // Nothing latched.
    pub fn none() -> Latches
        ensures { result ≡ none }
    {
        Latches {
            bits: [false; 16],
            main: false,
        }
    }

    // A condition happens: its bit, and the Main bit if it is enabled.
    pub fn latch(&mut self, bit: u32, on: bool)
        ensures { self.new ≡ latched_in self.old bit on }
    {
        // By index: after a write through `get_mut` the proof knows the length alone.
        let place = bit as usize;
        if place < 16 {
            self.bits[place] = true;
        }
        self.main |= on;
    }

    // The status read: its bits clear, the Main bit stays.
    pub fn clear(&mut self)
        ensures { self.new ≡ cleared_in self.old }
    {
        self.bits = [false; 16];
    }

    // Main's status read: the Main bit clears, the others stay.
    pub fn take_main(&mut self) -> bool
        ensures next { self.new ≡ taken_in self.old }
        ensures taken { result ≡ self.old.main }
    {
        std::mem::replace(&mut self.main, false)
    }
}

impl Status {
    pub fn opened() -> Status
        ensures { result ≡ opened }
    {
        Status {
            enable: 0,
            interrupt: Latches::none(),
            polling: Latches::none(),
        }
    }

    // A condition happens: it latches in both copies, and sets both Main bits where it is enabled.
    pub fn latch(&mut self, condition: Condition)
        ensures { self.new ≡ latched self.old (condition_bit condition) }
    {
        self.latch_bit(condition.bit());
    }

    // The same by its bit, and of any other bit.
    #[tactic(auto, unfolding(crate::specs::Latching::latched))]
    pub fn latch_bit(&mut self, bit: u32)
        ensures { self.new ≡ latched self.old bit }
    {
        let on = is_set(self.enable, bit);
        self.interrupt.latch(bit, on);
        self.polling.latch(bit, on);
    }

    // Interrupt Enable written.
    pub fn write_enable(&mut self, value: u16)
        ensures { self.new ≡ enabled self.old value }
    {
        self.enable = kept_enable(value);
    }

    // As opened, with the Main bits as they are.
    pub fn reset(&mut self)
        ensures { self.new ≡ reset self.old }
    {
        self.enable = 0;
        self.interrupt.clear();
        self.polling.clear();
    }
}
