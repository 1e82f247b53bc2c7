// A reply of one channel: what becomes of it, the word stored for it, and its answer, over the channel and its own part of the lent memory.
#![tactic(auto)]

ghost use Rattle.std.specs.Prelude.{◌≡◌, not};
ghost use Rattle.sequencer.specs.Playing.{send_of};
ghost use Rattle.readback.specs.Storing.{stored_word};
ghost use Rattle.channel_replies.specs.Answers.{receipt_of};
ghost use Rattle.channel_replies.specs.Replying.{disposition_now, crc_status, reply_counted, received_channel, received_words, command_reply, reply_answer, reply_of, reply_words};

use adc_words::AdcWord;
use channel_core::Channel;
use frame::Fields;
use refusal::Refusal;
use sequencer::Stage;
use status::{Condition, Status};

// The answer of a well-framed reply: what becomes of it.
pub use readback::Disposition as Receipt;

// What a reply that was kept or lost latches.
fn latch_crc(status: &mut Status, right: bool)
    ensures { status.new ≡ crc_status status.old right }
{
    if !right {
        status.latch(Condition::CrcError);
    }
}

// What becomes of a well-framed reply now that no command frame takes.
#[tactic(auto, unfolding(crate::specs::Replying::disposition_now))]
fn dispose(c: &Channel, m: u32) -> Receipt
    ensures { result ≡ disposition_now c.now m }
{
    let idle = c.sequencer.stage == Stage::Idle;
    readback::dispose(idle, c.sequencer.last, c.readbacks.stored, m)
}

// A reply that was due, kept or lost, is one of the six; its CRC is checked, and it may be an ADC word.
fn count_reply(c: &mut Channel, right: bool, word: AdcWord)
    ensures { c.new ≡ reply_counted c.old right word }
{
    latch_crc(&mut c.status, right);
    c.adc.add(c.sequencer.last_send().replies, word);
    c.sequencer.count_reply();
}

// A well-framed reply that no command frame takes.
fn receive(
    c: &mut Channel,
    words: &mut [u32],
    m: u32,
    user: u8,
    fields: &Fields,
    right: bool,
) -> Receipt
    ensures next { c.new ≡ received_channel (disposition_now c.old m) c.old m right fields.now.«data» }
    ensures answer { result ≡ disposition_now c.old m }
    ensures words { words.new ≡ received_words (disposition_now c.old m) c.old words.old m (stored_word (send_of c.old.sequencer.last) user (not right) fields.now.id fields.now.«data») }
{
    let receipt = dispose(c, m);
    match receipt {
        Receipt::Unsolicited => {}
        Receipt::Lost => {
            let lost = AdcWord {
                stored: false,
                right,
                data: fields.data,
            };
            count_reply(c, right, lost);
        }
        Receipt::Kept => {
            let data = fields.data;
            let last = c.sequencer.last_send();
            let word = readback::stored_word(&last, user, !right, fields.id, data);
            let second = c.registers.readback_second_active();
            c.readbacks.keep(words, second, m, word);
            let kept = AdcWord {
                stored: true,
                right,
                data,
            };
            count_reply(c, right, kept);
        }
    }
    receipt
}

// A reply that goes to E4-FA; its CRC is checked.
fn receive_command_reply(c: &mut Channel, fields: &Fields, right: bool)
    ensures { c.new ≡ command_reply c.old right fields.now.id fields.now.«data» }
{
    latch_crc(&mut c.status, right);
    c.commands.receive(!right, fields.id, fields.data);
}

// A reply from the supply: to a command frame, as long as that takes it, else to a setpoint.
#[tactic(auto, unfolding(crate::specs::Replying::reply_of, crate::specs::Replying::reply_answer, crate::specs::Replying::reply_words))]
pub fn reply(
    c: &mut Channel,
    words: &mut [u32],
    m: u32,
    user: u8,
    frame: u64,
) -> Result<Receipt, Refusal>
    ensures next { c.new ≡ reply_of c.old m frame }
    ensures answer { receipt_of result ≡ reply_answer c.old m frame }
    ensures words { words.new ≡ reply_words c.old words.old m user frame }
{
    let fields = frame::decode(frame)?;
    let right = fields.is_intact();
    if c.commands.takes() {
        receive_command_reply(c, &fields, right);
        return Ok(Receipt::Kept);
    }
    Ok(receive(c, words, m, user, &fields, right))
}
