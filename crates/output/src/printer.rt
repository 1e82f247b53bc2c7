// What is printed, gathered in a block that is written when it is full: a write for each piece would take longer than all the rest.
ghost use Rattle.std.specs.Prelude.{◌≡◌, ◌≤◌, false, [], ◌∷◌};

use std::io::{Print, Stdout};

// How many bytes a block gathers: over 400 frames, so that a write adds some nanoseconds to each.
const ROOM: usize = 8192;

// What is gathered is at the start of `bytes`: an array, since printing may not fail for want of memory. A write that fails closes the printer: nothing is gathered or written any more, so that
// what was written is always the first part of what was printed.
#[derive(Clone, Copy)]
pub struct Printer {
    out: Stdout,
    bytes: [u8; ROOM],
    count: usize,
    is_closed: bool,
    ghost fits: { count ≤ 8192 },
}

impl Printer {
    ghost use Rattle.output.specs.Blocks.{Prints, Flushed, FlushedIfFull};

    pub fn new(out: Stdout) -> Printer
        ensures open { result.is_closed ≡ false }
        ensures count { result.count ≡ 0 }
    {
        Printer {
            out,
            bytes: [0; ROOM],
            count: 0,
            is_closed: false,
        }
    }

    // Writes what is gathered. The last call of a program that prints.
    pub fn flush(&mut self)
        ensures { Flushed self.old self.new }
    {
        if self.is_closed {
            return;
        }
        if Print::write_all(&self.out, &self.bytes[..self.count]).is_ok() {
            self.count = 0;
        } else {
            self.is_closed = true;
        }
    }

    // Writes what is gathered, if the block is full.
    fn make_room(&mut self)
        ensures { FlushedIfFull self.old self.new }
    {
        if self.count == ROOM {
            self.flush();
        }
    }

    fn byte(&mut self, byte: u8)
        ensures { Prints self.old self.new (byte ∷ []) }
    {
        self.make_room();
        if !self.is_closed {
            self.bytes[self.count] = byte;
            self.count += 1;
        }
    }

    // Prints these bytes.
    pub fn text(&mut self, bytes: &[u8])
        ensures { Prints self.old self.new bytes.now }
    {
        let end = self.count + bytes.len();
        if self.is_closed {
            return;
        }
        if end <= ROOM {
            self.bytes[self.count..end].copy_from_slice(bytes);
            self.count = end;
        } else {
            for byte in bytes {
                self.byte(*byte);
            }
        }
    }
}
