// Little-endian numbers in a slice of bytes. An index has 32 bits: then those after it are indices too, whatever it is.
#![tactic(auto)]

ghost use Rattle.std.specs.Prelude.{ℕ, ◌≡◌, ◌+◌, ◌<◌, ◌^◌, get_or};
ghost use Rattle.little_endian.specs.Numbers.{number16, number32};

// A byte, and 0 past the end.
fn byte(bytes: &[u8], i: usize) -> u8
    ensures { result ≡ get_or bytes.now i 0 }
{
    if i < bytes.len() { bytes[i] } else { 0 }
}

// So many bytes from an index on.
fn field<const N: usize>(bytes: &[u8], at: usize) -> [u8; N]
    requires { at + N < 2 ^ 64 }
    ensures { (k : ℕ) → k < N → get_or result k 0 ≡ get_or bytes.now (at + k) 0 }
{
    let mut field = [0; N];
    for k in 0..N {
        field[k] = byte(bytes, at + k);
    }
    field
}

pub fn byte_at(bytes: &[u8], i: u32) -> u8
    ensures { result ≡ get_or bytes.now i 0 }
{
    byte(bytes, i as usize)
}

pub fn u16_at(bytes: &[u8], i: u32) -> u16
    ensures { result ≡ number16 bytes.now i }
{
    u16::from_le_bytes(field(bytes, i as usize))
}

pub fn u32_at(bytes: &[u8], i: u32) -> u32
    ensures { result ≡ number32 bytes.now i }
{
    u32::from_le_bytes(field(bytes, i as usize))
}
