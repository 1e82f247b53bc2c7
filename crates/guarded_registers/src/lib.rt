// Register write and read by role: what is lent, what the address names, whether the role may, then the board's own call.
// A call's contract is what `guard_refusal` comes to: every goal here opens it, and knows that a refusal's number is not 0.
#![tactic(auto, unfolding(isolation::specs::Calls::answer, isolation::specs::Calls::after, isolation::specs::Calls::words_after, access_control::specs::Guarding::guard_refusal, access_control::specs::Guarding::guarded_answer, access_control::specs::Guarding::guarded_after, access_control::specs::Guarding::guarded_words), using(refusal::proofs::Laws::refuses))]

ghost use Rattle.std.specs.Prelude.{◌≡◌, Some, not};
ghost use Rattle.address_map.specs.Addresses.{named_of};
ghost use Rattle.channel_core.specs.Answers.{outcome_of};
ghost use Rattle.channel_registers.specs.Answers.{read_outcome_of};
ghost use Rattle.board.specs.Answers.{one};
ghost use Rattle.isolation.specs.Calls.{write_register, read_register, none, words};
ghost use Rattle.access_control.specs.Guarding.{denied_write, denied_read, answer_to, board_after, memory_after};

use access_control::GuardedBoard;
use address_map::Region;
use permissions::{BoardRights, Role};
use refusal::Refusal;

// Whether a role may write to what an address names.
fn may_write(rights: &BoardRights, role: Role, region: Region) -> bool
    ensures { not result ≡ denied_write rights.now role (named_of (Some region)) }
{
    match region {
        Region::Main { .. } => role.is_examiner(),
        Region::Channel { number, .. } => rights.may_write(role, u32::from(number)),
    }
}

// Whether a role may read it.
fn may_read(rights: &BoardRights, role: Role, region: Region) -> bool
    ensures { not result ≡ denied_read rights.now role (named_of (Some region)) }
{
    match region {
        Region::Main { .. } => role.is_examiner(),
        Region::Channel { number, offset } => {
            rights.may_read_register(role, u32::from(number), offset)
        }
    }
}

pub fn write_register(
    g: &mut GuardedBoard,
    role: Role,
    readbacks: &mut [u32],
    address: u32,
    value: u16,
) -> Result<(), Refusal>
    ensures board { g.new ≡ board_after g.old role (write_register address value) (words readbacks.old) }
    ensures answer { one (outcome_of result) ≡ answer_to g.old role (write_register address value) (words readbacks.old) }
    ensures words { readbacks.new ≡ memory_after g.old role (write_register address value) readbacks.old }
{
    g.board.check_readbacks(readbacks)?;
    let region = access_control::check_address(address)?;
    access_control::check_permission(may_write(&g.rights, role, region))?;
    board_registers::write_register(&mut g.board, readbacks, address, value)
}

pub fn read_register(g: &mut GuardedBoard, role: Role, address: u32) -> Result<u16, Refusal>
    ensures board { g.new ≡ board_after g.old role (read_register address) none }
    ensures answer { one (read_outcome_of result) ≡ answer_to g.old role (read_register address) none }
{
    let region = access_control::check_address(address)?;
    access_control::check_permission(may_read(&g.rights, role, region))?;
    board_registers::read_register(&mut g.board, address)
}
