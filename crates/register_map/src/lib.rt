// The register map of document 01, with the registers that requests of document 02 add: the access of each offset, in one table that all register calls consult.
#![tactic(auto)]

ghost use Rattle.std.specs.Prelude.{◌≡◌, ◌<◌};
ghost use Rattle.register_map.specs.AccessRule.{channel_access, entry_access, main_access};
ghost use Rattle.register_map.specs.AccessRefusals.{read_refusal, write_refusal};
ghost use Rattle.refusal.specs.Refusals.{verdict_number};

use self::Access::{ReadOnly, ReadWrite, WriteOnly};
use refusal::Refusal;

// What a register call may do at an offset that is in the map.
#[derive(Clone, Copy, Debug, PartialEq, Eq)]
pub enum Access {
    ReadOnly,
    WriteOnly,
    ReadWrite,
}

// "The access of each offset stands in one table", None where it is not in the map: a channel's even offsets from 00 to FE, then Main's from 22 to 2A.
const ACCESS: [Option<Access>; 133] = [
    Some(ReadWrite), // 00 Interrupt Enable
    Some(ReadOnly), // 02 Interrupt Status
    Some(ReadOnly), // 04 Polling Status
    Some(WriteOnly), // 06 Reset
    Some(WriteOnly), // 08 Commands
    Some(ReadWrite), // 0A Clock
    Some(ReadOnly), // 0C Missing Readback Count
    Some(ReadOnly), // 0E Active Buffers
    Some(ReadOnly), // 10 Setpoint Count, high byte
    Some(ReadOnly), // 12 Setpoint Count, low word
    Some(ReadWrite), // 14 Frame ID
    None, // 16
    None, // 18
    None, // 1A
    None, // 1C
    None, // 1E
    Some(ReadWrite), // 20 Start Event
    Some(ReadWrite), // 22 Resume 1 Event
    Some(ReadWrite), // 24 Resume 2 Event
    Some(ReadWrite), // 26 Resume 3 Event
    Some(ReadWrite), // 28 Resume 4 Event
    Some(ReadWrite), // 2A Group End Event
    Some(ReadWrite), // 2C Tag Event
    None, // 2E
    Some(WriteOnly), // 30 Switch, user 1
    Some(WriteOnly), // 32 Switch, user 2
    Some(WriteOnly), // 34 Switch, user 3
    Some(WriteOnly), // 36 Switch, user 4
    Some(WriteOnly), // 38 Switch, user 5
    Some(WriteOnly), // 3A Switch, user 6
    Some(WriteOnly), // 3C Switch, user 7
    Some(WriteOnly), // 3E Switch, user 8
    Some(ReadWrite), // 40 Start delay, user 1, high byte
    Some(ReadWrite), // 42 Start delay, user 1, low word
    Some(ReadWrite), // 44 Start delay, user 2, high byte
    Some(ReadWrite), // 46 Start delay, user 2, low word
    Some(ReadWrite), // 48 Start delay, user 3, high byte
    Some(ReadWrite), // 4A Start delay, user 3, low word
    Some(ReadWrite), // 4C Start delay, user 4, high byte
    Some(ReadWrite), // 4E Start delay, user 4, low word
    Some(ReadWrite), // 50 Start delay, user 5, high byte
    Some(ReadWrite), // 52 Start delay, user 5, low word
    Some(ReadWrite), // 54 Start delay, user 6, high byte
    Some(ReadWrite), // 56 Start delay, user 6, low word
    Some(ReadWrite), // 58 Start delay, user 7, high byte
    Some(ReadWrite), // 5A Start delay, user 7, low word
    Some(ReadWrite), // 5C Start delay, user 8, high byte
    Some(ReadWrite), // 5E Start delay, user 8, low word
    Some(ReadWrite), // 60 Resume 1 delay, user 1, high byte
    Some(ReadWrite), // 62 Resume 1 delay, user 1, low word
    Some(ReadWrite), // 64 Resume 1 delay, user 2, high byte
    Some(ReadWrite), // 66 Resume 1 delay, user 2, low word
    Some(ReadWrite), // 68 Resume 1 delay, user 3, high byte
    Some(ReadWrite), // 6A Resume 1 delay, user 3, low word
    Some(ReadWrite), // 6C Resume 1 delay, user 4, high byte
    Some(ReadWrite), // 6E Resume 1 delay, user 4, low word
    Some(ReadWrite), // 70 Resume 1 delay, user 5, high byte
    Some(ReadWrite), // 72 Resume 1 delay, user 5, low word
    Some(ReadWrite), // 74 Resume 1 delay, user 6, high byte
    Some(ReadWrite), // 76 Resume 1 delay, user 6, low word
    Some(ReadWrite), // 78 Resume 1 delay, user 7, high byte
    Some(ReadWrite), // 7A Resume 1 delay, user 7, low word
    Some(ReadWrite), // 7C Resume 1 delay, user 8, high byte
    Some(ReadWrite), // 7E Resume 1 delay, user 8, low word
    Some(ReadWrite), // 80 Resume 2 delay, user 1, high byte
    Some(ReadWrite), // 82 Resume 2 delay, user 1, low word
    Some(ReadWrite), // 84 Resume 2 delay, user 2, high byte
    Some(ReadWrite), // 86 Resume 2 delay, user 2, low word
    Some(ReadWrite), // 88 Resume 2 delay, user 3, high byte
    Some(ReadWrite), // 8A Resume 2 delay, user 3, low word
    Some(ReadWrite), // 8C Resume 2 delay, user 4, high byte
    Some(ReadWrite), // 8E Resume 2 delay, user 4, low word
    Some(ReadWrite), // 90 Resume 2 delay, user 5, high byte
    Some(ReadWrite), // 92 Resume 2 delay, user 5, low word
    Some(ReadWrite), // 94 Resume 2 delay, user 6, high byte
    Some(ReadWrite), // 96 Resume 2 delay, user 6, low word
    Some(ReadWrite), // 98 Resume 2 delay, user 7, high byte
    Some(ReadWrite), // 9A Resume 2 delay, user 7, low word
    Some(ReadWrite), // 9C Resume 2 delay, user 8, high byte
    Some(ReadWrite), // 9E Resume 2 delay, user 8, low word
    Some(ReadWrite), // A0 Resume 3 delay, user 1, high byte
    Some(ReadWrite), // A2 Resume 3 delay, user 1, low word
    Some(ReadWrite), // A4 Resume 3 delay, user 2, high byte
    Some(ReadWrite), // A6 Resume 3 delay, user 2, low word
    Some(ReadWrite), // A8 Resume 3 delay, user 3, high byte
    Some(ReadWrite), // AA Resume 3 delay, user 3, low word
    Some(ReadWrite), // AC Resume 3 delay, user 4, high byte
    Some(ReadWrite), // AE Resume 3 delay, user 4, low word
    Some(ReadWrite), // B0 Resume 3 delay, user 5, high byte
    Some(ReadWrite), // B2 Resume 3 delay, user 5, low word
    Some(ReadWrite), // B4 Resume 3 delay, user 6, high byte
    Some(ReadWrite), // B6 Resume 3 delay, user 6, low word
    Some(ReadWrite), // B8 Resume 3 delay, user 7, high byte
    Some(ReadWrite), // BA Resume 3 delay, user 7, low word
    Some(ReadWrite), // BC Resume 3 delay, user 8, high byte
    Some(ReadWrite), // BE Resume 3 delay, user 8, low word
    Some(ReadWrite), // C0 Resume 4 delay, user 1, high byte
    Some(ReadWrite), // C2 Resume 4 delay, user 1, low word
    Some(ReadWrite), // C4 Resume 4 delay, user 2, high byte
    Some(ReadWrite), // C6 Resume 4 delay, user 2, low word
    Some(ReadWrite), // C8 Resume 4 delay, user 3, high byte
    Some(ReadWrite), // CA Resume 4 delay, user 3, low word
    Some(ReadWrite), // CC Resume 4 delay, user 4, high byte
    Some(ReadWrite), // CE Resume 4 delay, user 4, low word
    Some(ReadWrite), // D0 Resume 4 delay, user 5, high byte
    Some(ReadWrite), // D2 Resume 4 delay, user 5, low word
    Some(ReadWrite), // D4 Resume 4 delay, user 6, high byte
    Some(ReadWrite), // D6 Resume 4 delay, user 6, low word
    Some(ReadWrite), // D8 Resume 4 delay, user 7, high byte
    Some(ReadWrite), // DA Resume 4 delay, user 7, low word
    Some(ReadWrite), // DC Resume 4 delay, user 8, high byte
    Some(ReadWrite), // DE Resume 4 delay, user 8, low word
    Some(ReadWrite), // E0 Command frame: auxiliary bits, Frame ID
    Some(ReadWrite), // E2 Command frame: data
    Some(ReadOnly), // E4 Command frame: readback ID 1
    Some(ReadOnly), // E6 Command frame: readback 1
    Some(ReadOnly), // E8 Command frame: readback ID 2
    Some(ReadOnly), // EA Command frame: readback 2
    Some(ReadOnly), // EC Command frame: readback ID 3
    Some(ReadOnly), // EE Command frame: readback 3
    Some(ReadOnly), // F0 Command frame: readback ID 4
    Some(ReadOnly), // F2 Command frame: readback 4
    Some(ReadOnly), // F4 Command frame: readback ID 5
    Some(ReadOnly), // F6 Command frame: readback 5
    Some(ReadOnly), // F8 Command frame: readback ID 6
    Some(ReadOnly), // FA Command frame: readback 6
    Some(WriteOnly), // FC Command frame: send
    Some(ReadOnly), // FE Command frame: readback count
    Some(ReadWrite), // Main 22 Level
    Some(ReadWrite), // Main 24 Vector
    Some(ReadWrite), // Main 26 Enable
    Some(ReadOnly), // Main 28 Main Interrupt Status
    Some(ReadOnly), // Main 2A Main Polling Status
];

// The one place that reads the table.
fn entry(i: usize) -> Option<Access>
    requires { i < 133 }
    ensures { result ≡ entry_access i }
{
    ACCESS[i]
}

// The access of an offset from a channel's start; None where it is not in the map.
#[tactic(auto, unfolding(crate::specs::AccessRule::entry_access), using(crate::proofs::Laws::channel_odd, crate::proofs::Laws::channel_past))]
pub fn channel_access(offset: u16) -> Option<Access>
    ensures { result ≡ channel_access offset }
{
    if offset % 2 == 1 || 0xFE < offset {
        return None;
    }
    entry((offset / 2) as usize)
}

// The access of an offset of Main; None where it is not in the map.
#[tactic(auto, unfolding(crate::specs::AccessRule::entry_access), using(crate::proofs::Laws::main_odd, crate::proofs::Laws::main_before, crate::proofs::Laws::main_past))]
pub fn main_access(offset: u16) -> Option<Access>
    ensures { result ≡ main_access offset }
{
    if offset % 2 == 1 || offset < 0x22 || 0x2A < offset {
        return None;
    }
    entry(128 + ((offset - 0x22) / 2) as usize)
}

// 3 "address not in the map", 4 "read of a write-only one"
pub fn check_read(access: Option<Access>) -> Result<(), Refusal>
    ensures { verdict_number result ≡ read_refusal access }
{
    match access {
        None => Err(Refusal::UnmappedRegister),
        Some(WriteOnly) => Err(Refusal::AccessViolation),
        Some(ReadOnly | ReadWrite) => Ok(()),
    }
}

// 3 "address not in the map", 4 "write to a read-only register"
pub fn check_write(access: Option<Access>) -> Result<(), Refusal>
    ensures { verdict_number result ≡ write_refusal access }
{
    match access {
        None => Err(Refusal::UnmappedRegister),
        Some(ReadOnly) => Err(Refusal::AccessViolation),
        Some(WriteOnly | ReadWrite) => Ok(()),
    }
}
