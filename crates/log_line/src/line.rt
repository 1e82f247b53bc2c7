// The bytes of a line that is being written.
ghost use Rattle.std.specs.Prelude.{◌≡◌, ◌≤◌};

use refusal::Refusal;
use tally::Counts;

// The powers of ten of a number's digits, but for the last.
const POWERS: [u32; 9] = [
    1000000000, 100000000, 10000000, 1000000, 100000, 10000, 1000, 100, 10,
];

// What is written stands at the start of an array: a line cannot fail for want of memory.
#[derive(Clone, Copy)]
pub struct Line {
    pub bytes: [u8; 96],
    pub length: usize,
    ghost fits: { length ≤ 96 },
}

impl Line {
    ghost use Rattle.std.specs.Prelude.{[], ◌∷◌, ◌++◌, ◌+◌, ◌<◌, length};
    ghost use Rattle.refusal.specs.Refusals.{number_of};
    ghost use Rattle.tally.specs.Answers.{counted, refused};
    ghost use Rattle.log_line.specs.Lines.{digit, decimal, space, frame_counts, log_line};
    ghost use Rattle.log_line.specs.Written.{written};

    fn empty() -> Line
        ensures length { result.length ≡ 0 }
        ensures bytes { written result ≡ [] }
    {
        Line {
            bytes: [0; 96],
            length: 0,
        }
    }

    fn byte(&mut self, byte: u8)
        requires { self.old.length < 96 }
        ensures length { self.new.length ≡ self.old.length + 1 }
        ensures bytes { written self.new ≡ written self.old ++ (byte ∷ []) }
    {
        self.bytes[self.length] = byte;
        self.length += 1;
    }

    fn text(&mut self, text: &[u8])
        requires { self.old.length + length text.now ≤ 96 }
        ensures length { self.new.length ≡ self.old.length + length text.now }
        ensures bytes { written self.new ≡ written self.old ++ text.now }
    {
        let end = self.length + text.len();
        self.bytes[self.length..end].copy_from_slice(text);
        self.length = end;
    }

    // The digit at a power of ten, where the number comes up to it.
    fn digit(&mut self, power: u32, number: u32)
        requires room { self.old.length < 96 }
        requires power { 0 < power }
        ensures length { self.new.length ≤ self.old.length + 1 }
        ensures bytes { written self.new ≡ written self.old ++ digit power number }
    {
        if power <= number {
            self.byte(b'0' + (number / power % 10) as u8);
        }
    }

    // The digits from the first that is not 0; the last is always written.
    fn number(&mut self, number: u32)
        requires { self.old.length + 10 ≤ 96 }
        ensures length { self.new.length ≤ self.old.length + 10 }
        ensures bytes { written self.new ≡ written self.old ++ decimal number }
    {
        for power in POWERS {
            self.digit(power, number);
        }
        self.byte(b'0' + (number % 10) as u8);
    }

    fn spaced(&mut self, number: u32)
        requires { self.old.length + 11 ≤ 96 }
        ensures length { self.new.length ≤ self.old.length + 11 }
        ensures bytes { written self.new ≡ written self.old ++ (space ++ decimal number) }
    {
        self.byte(b' ');
        self.number(number);
    }

    #[tactic(auto, unfolding(crate::specs::Lines::frame_counts))]
    fn frames(&mut self, counts: &Counts)
        requires { self.old.length + 43 ≤ 96 }
        ensures length { self.new.length ≤ self.old.length + 43 }
        ensures bytes { written self.new ≡ written self.old ++ frame_counts counts.now }
    {
        self.number(counts.first);
        self.spaced(counts.second);
        self.spaced(counts.third);
        self.spaced(counts.fourth);
    }

    #[tactic(auto, unfolding(crate::specs::Lines::log_line))]
    pub fn of_counts(counts: &Counts) -> Line
        ensures { written result ≡ log_line (counted counts.now) }
    {
        let mut line = Line::empty();
        line.text(b"steps ");
        line.number(counts.steps);
        line.text(b" refused ");
        line.number(counts.refused);
        line.text(b" frames ");
        line.frames(counts);
        line
    }

    #[tactic(auto, unfolding(crate::specs::Lines::log_line))]
    pub fn of_refusal(reason: Refusal) -> Line
        ensures { written result ≡ log_line (refused (number_of reason)) }
    {
        let mut line = Line::empty();
        line.text(b"file ");
        line.number(u32::from(u8::from(reason)));
        line
    }
}
