// A script's header and its records (tests/CALLS.md). All numbers are little-endian.
ghost use Rattle.std.specs.Prelude.{◌≡◌};
ghost use Rattle.call_script.specs.Script.{records_of, header_of, record_at};

use crate::kind::Kind;
use crate::roles;
use permissions::Role;

// The header, and each record.
const SIZE: usize = 16;

// The most bytes a script has.
const MOST: usize = 65536;

#[derive(Clone, Copy, Debug, PartialEq, Eq)]
pub struct Header {
    pub n: u32,
    pub m: u32,
    pub seed: u32,
    pub mask: u32,
}

#[derive(Clone, Copy, Debug, PartialEq, Eq)]
pub struct Record {
    pub kind: Kind,
    pub channel: u8,
    // The low 4 bits of its byte: a code, since it stands for a `Lent` or for `Buffers`, by the kind.
    pub lent: u8,
    // Who makes the call: D5 and D4 of it.
    pub role: Role,
    pub buffer: u8,
    pub x: u32,
    pub y: u32,
    pub z: u32,
}

// How many records a script of this length has, if it can be this long.
#[tactic(auto, unfolding(crate::specs::Script::records_of))]
pub fn records_of(size: usize) -> Option<u16>
    ensures { result ≡ records_of size }
{
    if (SIZE..=MOST).contains(&size) && size % SIZE == 0 {
        Some((size / SIZE - 1) as u16)
    } else {
        None
    }
}

#[tactic(auto, unfolding(crate::specs::Script::header_of))]
pub fn header_of(script: &[u8]) -> Header
    ensures { result ≡ header_of script.now }
{
    Header {
        n: little_endian::u32_at(script, 0),
        m: little_endian::u32_at(script, 4),
        seed: little_endian::u32_at(script, 8),
        mask: little_endian::u32_at(script, 12),
    }
}

// A record by its number from 1.
#[tactic(auto, unfolding(crate::specs::Script::record_at))]
pub fn record_at(script: &[u8], number: u16) -> Record
    ensures { result ≡ record_at script.now number }
{
    let at = u32::from(number) * 16;
    let codes = little_endian::byte_at(script, at + 2);
    Record {
        kind: Kind::from(little_endian::byte_at(script, at)),
        channel: little_endian::byte_at(script, at + 1),
        lent: codes % 16,
        role: roles::role(codes / 16 % 4),
        buffer: little_endian::byte_at(script, at + 3),
        x: little_endian::u32_at(script, at + 4),
        y: little_endian::u32_at(script, at + 8),
        z: little_endian::u32_at(script, at + 12),
    }
}
