// A channel's life: Start, Group End, events and commands, user changes and ticks, over the channel's own part of the lent memory.
// It knows no board and no other channel.
#![tactic(auto)]

mod ticks;

ghost use Rattle.std.specs.Prelude.{◌≡◌};
ghost use Rattle.channel_core.specs.State.{opened, reset, with_status};
ghost use Rattle.channel_core.specs.Behaviour.{started, early_ended, user_changed, group_ended, group_words, ended_if, ended_words, started_if, resumed_on, event_of, event_words, commanded, command_words};

use adc_words::AdcWords;
use command_frames::CommandFrames;
use downloads::Download;
use readback::Readbacks;
use registers::{Event, Registers};
use sequencer::{Sequencer, Stage};
use status::{Condition, Status};
use tick_outcome::TickOutcome;
pub use ticks::{latch_bits, latch_by, setpoint_frame, setpoint_place, word_at};

#[derive(Clone, Copy, Debug, PartialEq, Eq)]
pub struct Channel {
    pub status: Status,
    pub registers: Registers,
    pub sequencer: Sequencer,
    pub readbacks: Readbacks,
    pub adc: AdcWords,
    pub download: Option<Download>,
    // What its last tick did.
    pub outcome: TickOutcome,
    pub commands: CommandFrames,
}

impl Channel {
    #[tactic(auto, unfolding(crate::specs::State::opened))]
    pub fn opened() -> Channel
        ensures { result ≡ opened }
    {
        Channel {
            status: Status::opened(),
            registers: Registers::opened(),
            sequencer: Sequencer::opened(),
            readbacks: Readbacks::opened(),
            adc: AdcWords::none(),
            download: None,
            outcome: TickOutcome::NoTick,
            commands: CommandFrames::opened(),
        }
    }

    // As opened, but for the Main bits.
    #[tactic(auto, unfolding(crate::specs::State::opened, crate::specs::State::reset))]
    pub fn reset(&mut self)
        ensures { self.new ≡ reset self.old }
    {
        self.status.reset();
        *self = Channel {
            status: self.status,
            ..Channel::opened()
        };
    }

    // Start, of an armed channel; from idle it latches RUN.
    #[tactic(auto, unfolding(crate::specs::Behaviour::started))]
    fn start(&mut self, delay: u32)
        ensures { self.new ≡ started self.old delay }
    {
        if self.sequencer.armed {
            if self.sequencer.stage == Stage::Idle {
                self.status.latch(Condition::Run);
            }
            self.sequencer.start(delay);
        }
    }

    // The status as the channel is idled: an early end, if the function is not finished.
    fn latch_early_end(&mut self)
        ensures { self.new ≡ with_status self.old (early_ended self.old.status self.old.sequencer) }
    {
        if self.sequencer.is_unfinished() {
            self.status.latch(Condition::EarlyEnd);
        }
    }

    // The current user changed to another.
    #[tactic(auto, unfolding(crate::specs::Behaviour::user_changed))]
    pub fn change_user(&mut self)
        ensures { self.new ≡ user_changed self.old }
    {
        self.latch_early_end();
        self.sequencer.idle();
    }

    // Group End: the end word into its own words, then the rest.
    #[tactic(auto, unfolding(crate::specs::Behaviour::group_ended, crate::specs::Behaviour::group_words))]
    fn end_group(&mut self, words: &mut [u32], m: u32)
        ensures next { self.new ≡ group_ended self.old }
        ensures words { words.new ≡ group_words self.old words.old m }
    {
        let second = self.registers.readback_second_active();
        self.readbacks.mark_end(words, second, m);
        self.latch_early_end();
        self.status.latch(Condition::GroupEnd);
        self.registers.end_group(self.sequencer.count);
        self.sequencer.end_group();
        self.readbacks.end_group();
        self.download = None;
        self.commands.end_group();
    }

    // Group End, then Start, each if it is asked for.
    #[tactic(auto, unfolding(crate::specs::Behaviour::ended_if, crate::specs::Behaviour::ended_words, crate::specs::Behaviour::started_if))]
    fn end_and_start(&mut self, ends: bool, starts: bool, delay: u32, words: &mut [u32], m: u32)
        ensures next { self.new ≡ started_if starts (ended_if ends self.old) delay }
        ensures words { words.new ≡ ended_words ends self.old words.old m }
    {
        if ends {
            self.end_group(words, m);
        }
        if starts {
            self.start(delay);
        }
    }

    // Each Resume event that has this code.
    fn resume_on(&mut self, registers: &Registers, user: u8, code: u8)
        ensures { self.new ≡ resumed_on registers.now self.old user code }
    {
        for pause in 1..=4 {
            if registers.triggers(Event::Resume(pause), code) {
                self.sequencer.resume(pause, registers.delay(pause, user));
            }
        }
    }

    // An event: Group End, Start, Resume, Tag, as its registers say just before it.
    #[tactic(auto, unfolding(crate::specs::Behaviour::tagged_if, crate::specs::Behaviour::event_of, crate::specs::Behaviour::event_words))]
    pub fn event(&mut self, words: &mut [u32], m: u32, user: u8, code: u8)
        ensures next { self.new ≡ event_of self.old user code }
        ensures words { words.new ≡ event_words self.old words.old m code }
    {
        let registers = self.registers;
        let ends = registers.triggers(Event::GroupEnd, code);
        let starts = registers.triggers(Event::Start, code);
        self.end_and_start(ends, starts, registers.delay(0, user), words, m);
        self.resume_on(&registers, user, code);
        if registers.triggers(Event::Tag, code) {
            self.sequencer.tag();
        }
    }

    // A write to Commands: D2 Group End, D0 Start, D1 Resume of the VME pause, D3 Tag.
    #[tactic(auto, unfolding(crate::specs::Behaviour::resumed_if, crate::specs::Behaviour::tagged_if, crate::specs::Behaviour::commanded, crate::specs::Behaviour::command_words))]
    pub fn command(&mut self, words: &mut [u32], m: u32, value: u16)
        ensures next { self.new ≡ commanded self.old value }
        ensures words { words.new ≡ command_words self.old words.old m value }
    {
        let ends = status::is_set(value, 2);
        let starts = status::is_set(value, 0);
        self.end_and_start(ends, starts, 0, words, m);
        if status::is_set(value, 1) {
            self.sequencer.resume(0, 0);
        }
        if status::is_set(value, 3) {
            self.sequencer.tag();
        }
    }
}
