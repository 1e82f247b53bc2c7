// The readings of a channel's last send, and what its last tick did, by the channel's number.
#![tactic(auto)]

ghost use Rattle.std.specs.Prelude.{◌≡◌};
ghost use Rattle.board_readings.specs.Answers.{measurement_of, tick_report_of};
ghost use Rattle.board_readings.specs.Calls.{readings_answer, last_tick_answer};

use board_state::Board;
use channel_readings::Readings;
use refusal::Refusal;
use tick_outcome::TickOutcome;

// Lent nothing. The board stays as it is.
#[tactic(auto, unfolding(crate::specs::Calls::readings_answer))]
pub fn last_readings(b: &Board, number: u32) -> Result<Readings, Refusal>
    ensures { measurement_of result ≡ readings_answer b.now number }
{
    let at = board_state::check_channel(number)?;
    Ok(channel_readings::last_readings(&b.channels[at]))
}

// Lent nothing. The board stays as it is.
#[tactic(auto, unfolding(crate::specs::Calls::last_tick_answer))]
pub fn last_tick(b: &Board, number: u32) -> Result<TickOutcome, Refusal>
    ensures { tick_report_of result ≡ last_tick_answer b.now number }
{
    let at = board_state::check_channel(number)?;
    Ok(b.channels[at].outcome)
}
