// The calls that name a channel by its number: setpoint write, arm, disarm, reply, and the retired readbacks. Each lends the channel only its own part of the memory, and goes by that channel's own rules.
#![tactic(auto)]

ghost use Rattle.std.specs.Prelude.{◌≡◌, length};
ghost use Rattle.channel_core.specs.Answers.{outcome_of, part_of};
ghost use Rattle.channel_replies.specs.Answers.{receipt_of};
ghost use Rattle.channel.specs.Answers.{length_of};
ghost use Rattle.board_state.specs.Checks.{index_number, index_of};
ghost use Rattle.board_channels.specs.Calls.{setpoint_answer, setpoint_words, arm_board, disarm_board, arm_answer, reply_board, reply_answer, reply_words, retired_refusal, retired_answer, retired_length};

use board_state::Board;
use channel_replies::Receipt;
use refusal::Refusal;

// A setpoint into the named channel's part. The board stays as it is.
#[tactic(auto, unfolding(crate::specs::Calls::setpoint_answer, crate::specs::Calls::setpoint_words))]
pub fn write_setpoint(
    b: &Board,
    setpoints: &mut [u32],
    number: u32,
    user: u32,
    buffer: u32,
    index: u32,
    word: u32,
) -> Result<(), Refusal>
    ensures answer { outcome_of result ≡ setpoint_answer b.now (length setpoints.old) number user buffer index }
    ensures words { setpoints.new ≡ setpoint_words b.now setpoints.old number user buffer index word }
{
    b.check_setpoints(setpoints)?;
    let at = board_state::check_channel(number)?;
    let part = b.setpoint_part(at);
    channel::write_setpoint(
        &b.channels[at],
        &mut setpoints[part],
        b.n,
        user,
        buffer,
        index,
        word,
    )
}

#[tactic(auto, unfolding(crate::specs::Calls::set_armed, crate::specs::Calls::arm_answer))]
pub fn arm(b: &mut Board, number: u32) -> Result<(), Refusal>
    ensures next { b.new ≡ arm_board b.old number }
    ensures answer { outcome_of result ≡ arm_answer number }
{
    let at = board_state::check_channel(number)?;
    channel::arm(&mut b.channels[at]);
    Ok(())
}

#[tactic(auto, unfolding(crate::specs::Calls::set_armed, crate::specs::Calls::arm_answer))]
pub fn disarm(b: &mut Board, number: u32) -> Result<(), Refusal>
    ensures next { b.new ≡ disarm_board b.old number }
    ensures answer { outcome_of result ≡ arm_answer number }
{
    let at = board_state::check_channel(number)?;
    channel::disarm(&mut b.channels[at]);
    Ok(())
}

// A reply to the named channel, stored in its part.
#[tactic(auto, unfolding(crate::specs::Calls::reply_board, crate::specs::Calls::reply_answer, crate::specs::Calls::reply_words))]
pub fn reply(
    b: &mut Board,
    readbacks: &mut [u32],
    number: u32,
    frame: u64,
) -> Result<Receipt, Refusal>
    ensures next { b.new ≡ reply_board b.old (length readbacks.old) number frame }
    ensures answer { receipt_of result ≡ reply_answer b.old (length readbacks.old) number frame }
    ensures words { readbacks.new ≡ reply_words b.old readbacks.old number frame }
{
    b.check_readbacks(readbacks)?;
    let at = board_state::check_channel(number)?;
    let part = b.readback_part(at);
    channel_replies::reply(
        &mut b.channels[at],
        &mut readbacks[part],
        b.m,
        b.user,
        frame,
    )
}

// The index of the named channel, lent its two readback buffers: their lengths are checked, then the number.
pub fn check_buffers(b: &Board, number: u32, one: usize, two: usize) -> Result<usize, Refusal>
    ensures refusal { index_number result ≡ retired_refusal b.now number one two }
    ensures index { index_of result number }
{
    channel::check_buffers(b.m, one, two)?;
    board_state::check_channel(number)
}

// The retired part of the named channel, of the two buffers lent; empty where refused.
#[tactic(auto, unfolding(crate::specs::Calls::retired_words), using(crate::proofs::RetiredPart::retired_part_lem, std::proofs::lemmas::List::get_or_default))]
pub fn retired<'a>(b: &Board, number: u32, one: &'a [u32], two: &'a [u32]) -> &'a [u32]
    ensures { result.now ≡ part_of (retired_answer b.now number one.now two.now) }
{
    match board_state::check_channel(number) {
        Ok(at) => channel::retired(&b.channels[at], b.m, one, two),
        Err(_) => &[],
    }
}

// The length of what `retired` gives, or the refusal.
#[tactic(auto, unfolding(crate::specs::Calls::retired_length, crate::specs::Calls::retired_words, channel::specs::Calls::retired_length))]
pub fn retired_length(b: &Board, number: u32, one: &[u32], two: &[u32]) -> Result<usize, Refusal>
    ensures { length_of result ≡ retired_length b.now number one.now two.now }
{
    let at = check_buffers(b, number, one.len(), two.len())?;
    channel::retired_length(&b.channels[at], b.m, one, two)
}
