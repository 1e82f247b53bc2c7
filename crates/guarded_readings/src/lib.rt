// The calls that read of a channel by its number, by role: retired readbacks, the readings of the last send, what the last tick did, and downloads. What is lent, the number, whether the role may read, then the board's own call; a part is empty where any of these refuses it, so there the right alone is asked.
// A call's contract is what `guard_refusal` comes to: every goal here opens it, and knows that a refusal's number is not 0.
#![tactic(auto, unfolding(isolation::specs::Calls::answer, isolation::specs::Calls::after, isolation::specs::Calls::words_after, access_control::specs::Guarding::guard_refusal, access_control::specs::Guarding::guarded_answer, access_control::specs::Guarding::guarded_after, access_control::specs::Guarding::guarded_words), using(refusal::proofs::Laws::refuses))]

pub mod download;

ghost use Rattle.std.specs.Prelude.{◌≡◌, cond, not};
ghost use Rattle.refusal.specs.Refusals.{verdict_number};
ghost use Rattle.channel.specs.Answers.{length_of};
ghost use Rattle.channel.specs.Calls.{then};
ghost use Rattle.channel.specs.OneChannel as which;
ghost use Rattle.permissions.specs.Rights.{rights_at, may_read};
ghost use Rattle.board.specs.Answers as answers;
ghost use Rattle.board_readings.specs.Answers.{measurement_of, tick_report_of};
ghost use Rattle.isolation.specs.Calls.{query, none, buffers};
ghost use Rattle.access_control.specs.Guarding.{channel_refusal, permission_denied, answer_to, part_in};

use access_control::GuardedBoard;
use channel_readings::Readings;
use permissions::{BoardRights, Role};
use refusal::Refusal;
use tick_outcome::TickOutcome;

// Whether a call that reads of the named channel is refused before it is made: the number, then the right.
fn check_reading(rights: &BoardRights, role: Role, number: u32) -> Result<(), Refusal>
    ensures { verdict_number result ≡ then (channel_refusal number) (cond (not (may_read (rights_at rights.now number) role)) permission_denied 0) }
{
    board_state::check_channel(number)?;
    access_control::check_permission(rights.may_read(role, number))
}

// The retired part of the named channel, of the two buffers lent; empty where refused.
pub fn retired<'a>(
    g: &GuardedBoard,
    role: Role,
    number: u32,
    one: &'a [u32],
    two: &'a [u32],
) -> &'a [u32]
    ensures { result.now ≡ part_in (answer_to g.now role (query number which.retired) (buffers one.now two.now)) }
{
    if g.rights.may_read(role, number) {
        board_channels::retired(&g.board, number, one, two)
    } else {
        &[]
    }
}

// The length of what `retired` gives, or the refusal.
pub fn retired_length(
    g: &GuardedBoard,
    role: Role,
    number: u32,
    one: &[u32],
    two: &[u32],
) -> Result<usize, Refusal>
    ensures { answers.one (length_of result) ≡ answer_to g.now role (query number which.retired_length) (buffers one.now two.now) }
{
    board_channels::check_buffers(&g.board, number, one.len(), two.len())?;
    access_control::check_permission(g.rights.may_read(role, number))?;
    board_channels::retired_length(&g.board, number, one, two)
}

// The readings of the named channel's last send.
pub fn last_readings(g: &GuardedBoard, role: Role, number: u32) -> Result<Readings, Refusal>
    ensures { answers.one (measurement_of result) ≡ answer_to g.now role (query number which.readings) none }
{
    check_reading(&g.rights, role, number)?;
    board_readings::last_readings(&g.board, number)
}

// What the named channel's last tick did.
pub fn last_tick(g: &GuardedBoard, role: Role, number: u32) -> Result<TickOutcome, Refusal>
    ensures { answers.one (tick_report_of result) ≡ answer_to g.now role (query number which.last_tick) none }
{
    check_reading(&g.rights, role, number)?;
    board_readings::last_tick(&g.board, number)
}
