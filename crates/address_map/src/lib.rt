// Whose a register address is: Main's or a channel's.
#![tactic(auto)]

ghost use Rattle.std.specs.Prelude.{◌≡◌};
ghost use Rattle.address_map.specs.Addresses.{named, named_of};

// What an address names: Main or a channel (1 to 4), with the offset from its start.
#[derive(Clone, Copy, Debug, PartialEq, Eq)]
pub enum Region {
    Main { offset: u16 },
    Channel { number: u8, offset: u16 },
}

// "A register call names the channel in whose 0800h its address falls; below 0800h is Main; 2800h and above is refused 3."
#[tactic(auto, unfolding(crate::specs::Addresses::named))]
pub fn decode_address(address: u32) -> Option<Region>
    ensures { named_of result ≡ named address }
{
    if address < 0x800 {
        Some(Region::Main {
            offset: address as u16,
        })
    } else if address < 0x2800 {
        Some(Region::Channel {
            number: (address / 0x800) as u8,
            offset: (address % 0x800) as u16,
        })
    } else {
        None
    }
}
