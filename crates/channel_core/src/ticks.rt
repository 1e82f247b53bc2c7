// One tick of a channel: the sequencer's, what a send latches and shows, a command frame that is due, and what the tick did.
ghost use Rattle.std.specs.Prelude.{◌≡◌, ◌%◌, get_or};
ghost use Rattle.frame.specs.Frames.{encoded};
ghost use Rattle.status.specs.Bits.{bit_of};
ghost use Rattle.sequencer.specs.Transmissions.{transmission_of, condition_number};
ghost use Rattle.channel_core.specs.Answers.{line_of};
ghost use Rattle.channel_core.specs.Behaviour.{setpoint_place, shortfall_status, latched_by, send_status, tick_line, due_of, tick_of, tick_answer};

use crate::Channel;
use command_frames::CommandFrames;
use sequencer::{Clock, Sent, Sequencer};
use status::{Condition, Status};

// Where a setpoint lies in the channel's own words; user and buffer from 0.
pub fn setpoint_place(user: u8, second: bool, n: u32, index: u32) -> usize
    ensures { result ≡ setpoint_place user (bit_of second) n index }
{
    (user as usize * 2 + usize::from(second)) * n as usize + index as usize
}

// A word of a slice, and 0 past its end.
pub fn word_at(words: &[u32], at: usize) -> u32
    ensures { result ≡ get_or words.now at 0 }
{
    words.get(at).copied().unwrap_or(0)
}

// D4 latched where so many replies are missing, and nothing where none is.
fn latch_shortfall(status: &mut Status, missing: u8)
    ensures { status.new ≡ shortfall_status status.old missing }
{
    if missing != 0 {
        status.latch(Condition::MissingReadback);
    }
}

// What is latched for missing replies, and for the condition of a word.
#[tactic(auto, using(status::proofs::Laws::condition_some))]
pub fn latch_by(status: &mut Status, missing: u8, condition: Option<Condition>)
    ensures { status.new ≡ latched_by status.old missing (condition_number condition) }
{
    match condition {
        Some(condition) => latch_bits(status, missing, condition.bit()),
        None => latch_bits(status, missing, 0),
    }
}

// The same by the condition's bit; 0 is no condition's.
pub fn latch_bits(status: &mut Status, missing: u8, bit: u32)
    ensures { status.new ≡ latched_by status.old missing bit }
{
    latch_shortfall(status, missing);
    if bit != 0 {
        status.latch_bit(bit);
    }
}

// What a send latches, `before` being the sequencer just before it.
fn latch_send(status: &mut Status, before: &Sequencer, sent: Option<Sent>)
    ensures { status.new ≡ send_status status.old before.now.last (transmission_of sent) }
{
    if let Some(sent) = sent {
        latch_by(status, before.shortfall(), sent.condition);
    }
}

// The frame of a setpoint: the Frame ID, D15-D0 of the word, auxiliary 0.
pub fn setpoint_frame(id: u8, word: u32) -> u64
    ensures { result ≡ encoded id (word % 65536) 0 }
{
    frame::encode(id, (word % 65536) as u16, 0)
}

// The frame of what a tick sends: a setpoint's, a command frame that is due, or none.
fn send_frame(id: u8, commands: &CommandFrames, sent: Option<Sent>) -> Option<u64>
    ensures { line_of result ≡ tick_line id commands.now (transmission_of sent) }
{
    match sent {
        Some(sent) => Some(setpoint_frame(id, sent.word)),
        None if commands.is_due() => Some(commands.frame()),
        None => None,
    }
}

impl Channel {
    // The word at the index due, of the current user's active buffer.
    #[tactic(auto, unfolding(crate::specs::Behaviour::due_of))]
    fn due(&self, setpoints: &[u32], n: u32, user: u8) -> u32
        ensures { result ≡ due_of self.now setpoints.now n user }
    {
        let second = self.registers.second_active(user);
        let at = setpoint_place(registers::zero_based(user), second, n, self.sequencer.index);
        word_at(setpoints, at)
    }

    #[tactic(auto, unfolding(crate::specs::Behaviour::tick_of, crate::specs::Behaviour::tick_outcome_of, crate::specs::Behaviour::tick_answer))]
    pub fn tick(&mut self, setpoints: &[u32], n: u32, user: u8) -> Option<u64>
        ensures next { self.new ≡ tick_of self.old setpoints.now n user }
        ensures answer { line_of result ≡ tick_answer self.old setpoints.now n user }
    {
        let clock = Clock {
            due: self.due(setpoints, n, user),
            depth: n,
            period: registers::period(self.registers.clock),
            id: self.registers.id,
        };
        // What the tick latches, and what it did, goes by the state just before it.
        let before = self.sequencer;
        let sent = self.sequencer.tick(&clock);
        let frame = send_frame(clock.id, &self.commands, sent);
        latch_send(&mut self.status, &before, sent);
        self.commands.tick(sent.is_some());
        self.outcome = tick_outcome::outcome(frame.is_some(), &before);
        frame
    }
}
