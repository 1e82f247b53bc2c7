// The calls that change a channel by its number, by role: setpoint write, arm, disarm and reply. What is lent, the number, whether the role may write, then the board's own call.
// A call's contract is what `guard_refusal` comes to: every goal here opens it, and knows that a refusal's number is not 0.
#![tactic(auto, unfolding(isolation::specs::Calls::answer, isolation::specs::Calls::after, isolation::specs::Calls::words_after, access_control::specs::Guarding::guard_refusal, access_control::specs::Guarding::guarded_answer, access_control::specs::Guarding::guarded_after, access_control::specs::Guarding::guarded_words), using(refusal::proofs::Laws::refuses))]

ghost use Rattle.std.specs.Prelude.{◌≡◌, cond, not};
ghost use Rattle.refusal.specs.Refusals.{verdict_number};
ghost use Rattle.channel_core.specs.Answers.{outcome_of};
ghost use Rattle.channel_replies.specs.Answers.{receipt_of};
ghost use Rattle.channel.specs.Calls.{then};
ghost use Rattle.permissions.specs.Rights.{rights_at, may_write};
ghost use Rattle.board.specs.Answers.{one};
ghost use Rattle.isolation.specs.Calls as call;
ghost use Rattle.isolation.specs.Calls.{none, words};
ghost use Rattle.access_control.specs.Guarding.{channel_refusal, permission_denied, answer_to, board_after, memory_after};

use access_control::GuardedBoard;
use channel_replies::Receipt;
use permissions::{BoardRights, Role};
use refusal::Refusal;

// Whether a call that writes to the named channel is refused before it is made: the number, then the right.
fn check_writing(rights: &BoardRights, role: Role, number: u32) -> Result<(), Refusal>
    ensures { verdict_number result ≡ then (channel_refusal number) (cond (not (may_write (rights_at rights.now number) role)) permission_denied 0) }
{
    board_state::check_channel(number)?;
    access_control::check_permission(rights.may_write(role, number))
}

// The board stays as it is.
pub fn write_setpoint(
    g: &GuardedBoard,
    role: Role,
    setpoints: &mut [u32],
    number: u32,
    user: u32,
    buffer: u32,
    index: u32,
    word: u32,
) -> Result<(), Refusal>
    ensures answer { one (outcome_of result) ≡ answer_to g.now role (call.write_setpoint number user buffer index word) (words setpoints.old) }
    ensures words { setpoints.new ≡ memory_after g.now role (call.write_setpoint number user buffer index word) setpoints.old }
{
    g.board.check_setpoints(setpoints)?;
    check_writing(&g.rights, role, number)?;
    board_channels::write_setpoint(&g.board, setpoints, number, user, buffer, index, word)
}

pub fn arm(g: &mut GuardedBoard, role: Role, number: u32) -> Result<(), Refusal>
    ensures board { g.new ≡ board_after g.old role (call.arm number) none }
    ensures answer { one (outcome_of result) ≡ answer_to g.old role (call.arm number) none }
{
    check_writing(&g.rights, role, number)?;
    board_channels::arm(&mut g.board, number)
}

pub fn disarm(g: &mut GuardedBoard, role: Role, number: u32) -> Result<(), Refusal>
    ensures board { g.new ≡ board_after g.old role (call.disarm number) none }
    ensures answer { one (outcome_of result) ≡ answer_to g.old role (call.disarm number) none }
{
    check_writing(&g.rights, role, number)?;
    board_channels::disarm(&mut g.board, number)
}

pub fn reply(
    g: &mut GuardedBoard,
    role: Role,
    readbacks: &mut [u32],
    number: u32,
    frame: u64,
) -> Result<Receipt, Refusal>
    ensures board { g.new ≡ board_after g.old role (call.reply number frame) (words readbacks.old) }
    ensures answer { one (receipt_of result) ≡ answer_to g.old role (call.reply number frame) (words readbacks.old) }
    ensures words { readbacks.new ≡ memory_after g.old role (call.reply number frame) readbacks.old }
{
    g.board.check_readbacks(readbacks)?;
    check_writing(&g.rights, role, number)?;
    board_channels::reply(&mut g.board, readbacks, number, frame)
}
