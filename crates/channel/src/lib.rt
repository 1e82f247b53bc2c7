// The calls that name a channel, but the register calls and the reply, over the channel and its own part of the lent memory.
// They know no board and no other channel.
#![tactic(auto)]

pub mod download;

ghost use Rattle.std.specs.Prelude.{◌≡◌};
ghost use Rattle.refusal.specs.Refusals.{verdict_number};
ghost use Rattle.channel_core.specs.Answers.{outcome_of};
ghost use Rattle.channel.specs.Answers.{length_of};
ghost use Rattle.channel.specs.Calls.{outside, range_refusal, active_buffer, setpoint_refusal, setpoint_answer, setpoint_words, armed_of, disarmed_of, retired_refusal, retired_words, retired_length, main_bit, main_taken};

use channel_core::Channel;
use refusal::Refusal;
use registers::Registers;

// Whether a number lies outside a range.
pub fn is_outside(low: u32, high: u32, number: u32) -> bool
    ensures { result ≡ outside low high number }
{
    number < low || high < number
}

// Whether a number is refused that is to lie in a range.
pub fn check_range(low: u32, high: u32, number: u32) -> Result<(), Refusal>
    ensures { verdict_number result ≡ range_refusal low high number }
{
    if is_outside(low, high, number) {
        Err(Refusal::OutOfRange)
    } else {
        Ok(())
    }
}

// The active one of a user's setpoint buffers, 1 or 2.
fn active_buffer(registers: &Registers, user: u8) -> u32
    ensures { result ≡ active_buffer registers.now user }
{
    if registers.second_active(user) { 2 } else { 1 }
}

// Whether a setpoint write is refused: the range, then the active buffer.
#[tactic(auto, unfolding(crate::specs::Calls::setpoint_refusal))]
fn check_setpoint(c: &Channel, n: u32, user: u32, buffer: u32, index: u32) -> Result<(), Refusal>
    ensures { verdict_number result ≡ setpoint_refusal c.now n user buffer index }
{
    check_range(1, 8, user)?;
    check_range(1, 2, buffer)?;
    if n <= index {
        Err(Refusal::OutOfRange)
    } else if c.sequencer.armed && buffer == active_buffer(&c.registers, user as u8) {
        Err(Refusal::ActiveBuffer)
    } else {
        Ok(())
    }
}

// A setpoint stored in the channel's own words. The channel itself stays as it is.
#[tactic(auto, unfolding(crate::specs::Calls::setpoint_answer, crate::specs::Calls::setpoint_words))]
pub fn write_setpoint(
    c: &Channel,
    words: &mut [u32],
    n: u32,
    user: u32,
    buffer: u32,
    index: u32,
    word: u32,
) -> Result<(), Refusal>
    ensures answer { outcome_of result ≡ setpoint_answer c.now n user buffer index }
    ensures words { words.new ≡ setpoint_words c.now words.old n user buffer index word }
{
    check_setpoint(c, n, user, buffer, index)?;
    let at = channel_core::setpoint_place((user - 1) as u8, buffer == 2, n, index);
    readback::store(words, at, word);
    Ok(())
}

#[tactic(auto, unfolding(crate::specs::Calls::armed_of))]
pub fn arm(c: &mut Channel)
    ensures { c.new ≡ armed_of c.old }
{
    c.sequencer.arm();
}

#[tactic(auto, unfolding(crate::specs::Calls::disarmed_of))]
pub fn disarm(c: &mut Channel)
    ensures { c.new ≡ disarmed_of c.old }
{
    c.sequencer.disarm();
    c.commands.drop_waiting();
}

// Whether a call is refused that is lent two readback buffers: both are to be of the depth.
pub fn check_buffers(m: u32, one: usize, two: usize) -> Result<(), Refusal>
    ensures { verdict_number result ≡ retired_refusal m one two }
{
    let depth = m as usize;
    if one == depth && two == depth {
        Ok(())
    } else {
        Err(Refusal::SizeMismatch)
    }
}

// The stored part of the inactive readback buffer; empty where the two buffers are not of the depth.
#[tactic(auto, unfolding(crate::specs::Calls::retired_words))]
pub fn retired<'a>(c: &Channel, m: u32, one: &'a [u32], two: &'a [u32]) -> &'a [u32]
    ensures { result.now ≡ retired_words c.now m one.now two.now }
{
    match check_buffers(m, one.len(), two.len()) {
        Ok(()) => {
            let second = c.registers.readback_second_active();
            readback::retired_part(second, c.readbacks.retired, one, two)
        }
        Err(_) => &[],
    }
}

// The length of what `retired` gives, or the refusal.
#[tactic(auto, unfolding(crate::specs::Calls::retired_length))]
pub fn retired_length(c: &Channel, m: u32, one: &[u32], two: &[u32]) -> Result<usize, Refusal>
    ensures { length_of result ≡ retired_length c.now m one.now two.now }
{
    check_buffers(m, one.len(), two.len())?;
    Ok(retired(c, m, one, two).len())
}

// The channel's bit in Main's Interrupt Status or Polling Status, which clears there.
#[tactic(auto, unfolding(crate::specs::Calls::main_taken))]
pub fn take_main(c: &mut Channel, polling: bool) -> bool
    ensures next { c.new ≡ main_taken c.old polling }
    ensures bit { result ≡ main_bit c.old polling }
{
    if polling {
        c.status.polling.take_main()
    } else {
        c.status.interrupt.take_main()
    }
}
