// The board's calls by role: the board with the rights that its opening gave, and the checks before a call that the board has none of.
#![tactic(auto)]

ghost use Rattle.std.specs.Prelude.{◌≡◌, cond, not};
ghost use Rattle.refusal.specs.Refusals.{verdict_number};
ghost use Rattle.access_control.specs.Guarding.{permission_denied};
ghost use Rattle.address_map.specs.Addresses.{named_of};
ghost use Rattle.access_control.specs.Checks.{address_checked, region_checked};

use address_map::Region;
use board_state::Board;
use permissions::BoardRights;
use refusal::Refusal;

// No call changes the rights.
#[derive(Clone, Copy, Debug, PartialEq, Eq)]
pub struct GuardedBoard {
    pub board: Board,
    pub rights: BoardRights,
}

// What an address names, if it is in the map; else 3.
pub fn check_address(address: u32) -> Result<Region, Refusal>
    ensures { address_checked result address }
{
    check_region(address_map::decode_address(address))
}

// 3 of what an address names. What the register can do is not looked at.
pub fn check_region(region: Option<Region>) -> Result<Region, Refusal>
    ensures { region_checked result (named_of region) }
{
    let region = region.ok_or(Refusal::UnmappedRegister)?;
    let access = match region {
        Region::Main { offset } => register_map::main_access(offset),
        Region::Channel { offset, .. } => register_map::channel_access(offset),
    };
    match access {
        Some(_) => Ok(region),
        None => Err(Refusal::UnmappedRegister),
    }
}

// 13, where the right is missing.
pub fn check_permission(permitted: bool) -> Result<(), Refusal>
    ensures { verdict_number result ≡ cond (not permitted) permission_denied 0 }
{
    if permitted {
        Ok(())
    } else {
        Err(Refusal::PermissionDenied)
    }
}
