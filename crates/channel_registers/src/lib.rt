// The register write and the register read of one channel, over the channel and its own part of the lent memory.
// They know no board and no other channel.
#![tactic(auto)]

ghost use Rattle.std.specs.Prelude.{◌≡◌};
ghost use Rattle.refusal.specs.Refusals.{verdict_number};
ghost use Rattle.channel_core.specs.Answers.{outcome_of};
ghost use Rattle.channel_registers.specs.Answers.{read_outcome_of};
ghost use Rattle.channel_registers.specs.Calls.{cannot_send, register_refusal, register_effect, register_words, written_of, written_answer, written_words, read_effect, read_value, read_of, read_answer};

use channel_core::Channel;
use refusal::Refusal;
use sequencer::Stage;

// Whether a write is one to FC with D0, while the channel is disarmed or not idle.
fn cannot_send(c: &Channel, offset: u16, value: u16) -> bool
    ensures { result ≡ cannot_send c.now offset value }
{
    let ready = c.sequencer.armed && c.sequencer.stage == Stage::Idle;
    offset == 0xfc && status::is_set(value, 0) && !ready
}

// Whether a write at an offset is refused: the access, then a function that is active, then the clock code.
#[tactic(auto, unfolding(crate::specs::Calls::register_refusal))]
fn check_write(c: &Channel, offset: u16, value: u16) -> Result<(), Refusal>
    ensures { verdict_number result ≡ register_refusal c.now offset value }
{
    register_map::check_write(register_map::channel_access(offset))?;
    if cannot_send(c, offset, value) {
        Err(Refusal::FunctionActive)
    } else if offset == 0x0a && 3 < value {
        Err(Refusal::InvalidClock)
    } else {
        Ok(())
    }
}

// What an accepted write does.
#[tactic(auto, unfolding(crate::specs::Calls::register_effect, crate::specs::Calls::register_words))]
fn write(c: &mut Channel, words: &mut [u32], m: u32, offset: u16, value: u16)
    ensures next { c.new ≡ register_effect c.old offset value }
    ensures words { words.new ≡ register_words c.old words.old m offset value }
{
    match offset {
        0x00 => c.status.write_enable(value),
        0x06 => {
            if status::is_set(value, 0) {
                c.reset();
            }
        }
        0x08 => c.command(words, m, value),
        0xe0.. => c.commands.write(offset, value),
        _ => c.registers.write(offset, value),
    }
}

#[tactic(auto, unfolding(crate::specs::Calls::written_of, crate::specs::Calls::written_answer, crate::specs::Calls::written_words))]
pub fn write_register(
    c: &mut Channel,
    words: &mut [u32],
    m: u32,
    offset: u16,
    value: u16,
) -> Result<(), Refusal>
    ensures next { c.new ≡ written_of c.old offset value }
    ensures answer { outcome_of result ≡ written_answer c.old offset value }
    ensures words { words.new ≡ written_words c.old words.old m offset value }
{
    check_write(c, offset, value)?;
    write(c, words, m, offset, value);
    Ok(())
}

// What a read shows, before it clears anything.
#[tactic(auto, unfolding(crate::specs::Calls::read_value))]
fn read(c: &Channel, offset: u16) -> u16
    ensures { result ≡ read_value c.now offset }
{
    match offset {
        0x00 => c.status.enable,
        0x02 => status::word_of_bits(c.status.interrupt.bits),
        0x04 => status::word_of_bits(c.status.polling.bits),
        0x0c => u16::from(c.sequencer.missing),
        0xe0.. => c.commands.read(offset),
        _ => c.registers.read(offset),
    }
}

// A status read clears that copy; a read of 0C clears the count of missing readbacks.
#[tactic(auto, unfolding(crate::specs::Calls::read_effect))]
fn clear_read(c: &mut Channel, offset: u16)
    ensures { c.new ≡ read_effect c.old offset }
{
    match offset {
        0x02 => c.status.interrupt.clear(),
        0x04 => c.status.polling.clear(),
        0x0c => c.sequencer.clear_missing(),
        _ => {}
    }
}

#[tactic(auto, unfolding(crate::specs::Calls::read_of, crate::specs::Calls::read_answer))]
pub fn read_register(c: &mut Channel, offset: u16) -> Result<u16, Refusal>
    ensures next { c.new ≡ read_of c.old offset }
    ensures answer { read_outcome_of result ≡ read_answer c.old offset }
{
    register_map::check_read(register_map::channel_access(offset))?;
    let value = read(c, offset);
    clear_read(c, offset);
    Ok(value)
}
