// What the programs `trace`, `calls` and `why` print: text and numbers, gathered in a block.
#![tactic(auto)]

mod printer;

ghost use Rattle.std.specs.Prelude.{◌≡◌, [], ◌∷◌, ◌%◌, ◌≤◌};
ghost use Rattle.output.specs.Blocks.{Prints};
ghost use Rattle.output.specs.Digits.{hex_digit, hex_of, PrintsNumber};

pub use printer::Printer;

// The lowest hexadecimal digit of a number, upper-case.
#[tactic(auto, unfolding(crate::specs::Digits::hex_digit))]
fn hex_digit(number: u64) -> u8
    ensures { result ≡ hex_digit (number % 16) }
{
    let digit = (number % 16) as u8;
    if digit < 10 {
        b'0' + digit
    } else {
        b'A' - 10 + digit
    }
}

impl Printer {
    pub fn end_line(&mut self)
        ensures { Prints self.old self.new (10 ∷ []) }
    {
        self.text(b"\n");
    }

    pub fn decimal(&mut self, number: u64)
        ensures { PrintsNumber self.old self.new [] number }
    {
        let mut digits = [0u8; 20];
        let length = io::decimal(number, &mut digits);
        self.text(&digits[..length]);
    }

    // Words and a number after them.
    pub fn numbered(&mut self, bytes: &[u8], number: u64)
        ensures { PrintsNumber self.old self.new bytes.now number }
    {
        self.text(bytes);
        self.decimal(number);
    }

    // The last N hexadecimal digits of a number.
    fn hex<const N: usize>(&mut self, number: u64)
        requires { N ≤ 16 }
        ensures { Prints self.old self.new (hex_of N number) }
    {
        let mut digits = [0u8; N];
        let mut rest = number;
        for place in 0..N {
            digits[N - 1 - place] = hex_digit(rest);
            rest /= 16;
        }
        self.text(&digits);
    }

    // A register's value: four digits.
    pub fn hex_value(&mut self, value: u16)
        ensures { Prints self.old self.new (hex_of 4 value) }
    {
        self.hex::<4>(u64::from(value));
    }

    // A word of lent memory: eight.
    pub fn hex_word(&mut self, word: u32)
        ensures { Prints self.old self.new (hex_of 8 word) }
    {
        self.hex::<8>(u64::from(word));
    }

    // A frame: eleven.
    pub fn hex_frame(&mut self, frame: u64)
        ensures { Prints self.old self.new (hex_of 11 frame) }
    {
        self.hex::<11>(frame);
    }

    // A digest: sixteen.
    pub fn hex_digest(&mut self, digest: u64)
        ensures { Prints self.old self.new (hex_of 16 digest) }
    {
        self.hex::<16>(digest);
    }
}
