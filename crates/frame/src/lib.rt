// The 43-bit frame and its CRC (document 01, Frame).
#![tactic(auto)]

mod remainder_table;

ghost use Rattle.std.specs.Prelude.{◌≡◌};
ghost use Rattle.frame.specs.Crc.{crc_of, of_bytes};
ghost use Rattle.frame.specs.Frames.{crc_for, encoded, read, reading_of, crc_right};

use refusal::Refusal;
use remainder_table::REMAINDERS;

// The fields of a well-framed number, each as received.
#[derive(Clone, Copy, Debug, PartialEq, Eq)]
pub struct Fields {
    pub id: u8,
    pub data: u16,
    pub auxiliary: u8,
    pub crc: u8,
}

// The CRC of one byte. The only place where a remainder is looked up; none is worked out in another way.
fn byte_crc(byte: u8) -> u8
    ensures { result ≡ crc_of byte }
{
    REMAINDERS[byte as usize]
}

// The CRC of a message of any length.
pub fn crc(message: &[u8]) -> u8
    ensures { result ≡ crc_of (of_bytes message.now) }
{
    let mut remainder: u8 = 0;
    for &byte in message {
        remainder = byte_crc(remainder ^ byte);
    }
    remainder
}

// The CRC of the 32 middle bits of a frame.
fn frame_crc(id: u8, data: u16, auxiliary: u8) -> u8
    ensures { result ≡ crc_for id «data» auxiliary }
{
    let [high, low] = data.to_be_bytes();
    crc(&[id, high, low, auxiliary])
}

// The frame that carries these values.
#[tactic(auto, unfolding(crate::specs::Frames::encoded))]
pub fn encode(id: u8, data: u16, auxiliary: u8) -> u64
    ensures { result ≡ encoded id «data» auxiliary }
{
    let crc = frame_crc(id, data, auxiliary);
    let middle = (u64::from(id) << 24) + (u64::from(data) << 8) + u64::from(auxiliary);
    (middle << 10) + (u64::from(crc) << 2) + 3
}

// The fields of any number, or that it is not well framed.
#[tactic(auto, unfolding(crate::specs::Frames::read))]
pub fn decode(frame: u64) -> Result<Fields, Refusal>
    ensures { reading_of result ≡ read frame }
{
    // 2^43 or more, start bit 1, or stop bits not 11
    if frame >= 0x800_0000_0000 || (frame >> 42) % 2 != 0 || frame % 4 != 3 {
        return Err(Refusal::FramingError);
    }
    Ok(Fields {
        id: ((frame >> 34) % 0x100) as u8,
        data: ((frame >> 18) % 0x1_0000) as u16,
        auxiliary: ((frame >> 10) % 0x100) as u8,
        crc: ((frame >> 2) % 0x100) as u8,
    })
}

impl Fields {
    // Whether the CRC as received is right for the fields beside it.
    pub fn is_intact(&self) -> bool
        ensures { result ≡ crc_right self.now.id self.now.«data» self.now.auxiliary self.now.crc }
    {
        self.crc == frame_crc(self.id, self.data, self.auxiliary)
    }
}
