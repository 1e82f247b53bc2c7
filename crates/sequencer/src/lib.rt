// Playing a function: arming, the stage, the countdowns, which word is due, what is sent, the setpoint count, the count of missing readbacks, and a tag
// for the next send.
// The sequencer knows no register and no memory: the word due, the period and the Frame ID are handed in on each tick.
#![tactic(auto)]

mod ticks;
mod words;

ghost use Rattle.std.specs.Prelude.{◌≡◌, ◌≤◌, Some};
ghost use Rattle.sequencer.specs.Playing.{opened, unfinished, send_of, shortfall, missing_with, idled, armed, disarmed, started, resumed, replies_of, answered, group_ended, tagged, with_missing};

use status::Condition;

// The Frame ID whose missing replies are counted.
const READBACK_ID: u8 = 0x15;

// A supply answers that Frame ID with so many readbacks.
const READBACKS: u8 = 6;

// What the channel is doing.
#[derive(Clone, Copy, Debug, PartialEq, Eq)]
pub enum Stage {
    Idle,
    // The countdown to the first word.
    Starting,
    // Plain words, one after the other.
    Running,
    // A word with a pause is repeated: document 01's pause 1-4 by its number, from which its event and its bit follow, and 0 for the VME pause.
    Paused(u8),
    // The pause is resumed: its delay, then the silent ticks.
    Resuming,
    // The last word is repeated.
    Ended,
}

// What a setpoint word asks for: nothing, a pause (0 the VME pause), the end.
#[derive(Clone, Copy, Debug, PartialEq, Eq)]
pub enum Kind {
    Plain,
    Pause(u8),
    Last,
}

// A send: what it was, the Frame ID that it carried, whether it used a tag, and the replies after it.
#[derive(Clone, Copy, Debug, Default, PartialEq, Eq)]
pub struct LastSend {
    pub first: bool,
    pub paused: bool,
    pub last: bool,
    pub id: u8,
    pub tagged: bool,
    pub replies: u8,
}

#[derive(Clone, Copy, Debug, PartialEq, Eq)]
pub struct Sequencer {
    pub armed: bool,
    pub stage: Stage,
    // Ticks to the next send.
    pub left: u64,
    // Ticks to the next word, while resuming.
    pub resume: u64,
    // The index due.
    pub index: u32,
    // The word that is repeated.
    pub word: u32,
    // The last send since idle, if any.
    pub last: Option<LastSend>,
    // The setpoint count.
    pub count: u32,
    // The count of missing readbacks.
    pub missing: u8,
    // A tag that no send has used.
    pub tag: bool,
}

// What a tick is handed: the word at the index due, the depth of its buffer, the clock's period, and the Frame ID that a send carries.
#[derive(Clone, Copy, Debug, PartialEq, Eq)]
pub struct Clock {
    pub due: u32,
    pub depth: u32,
    pub period: u32,
    pub id: u8,
}

// A word that a tick sends, with the condition that it latches.
#[derive(Clone, Copy, Debug, PartialEq, Eq)]
pub struct Sent {
    pub word: u32,
    pub condition: Option<Condition>,
}

impl LastSend {
    // How many of the six replies are missing after a send of Frame ID 15h; none after another send.
    #[tactic(auto, unfolding(crate::specs::Playing::shortfall))]
    pub fn shortfall(self) -> u8
        ensures { result ≡ shortfall (Some self) }
    {
        if self.id == READBACK_ID {
            READBACKS.saturating_sub(self.replies)
        } else {
            0
        }
    }
}

impl Sequencer {
    pub fn opened() -> Sequencer
        ensures { result ≡ opened }
    {
        Sequencer {
            armed: false,
            stage: Stage::Idle,
            left: 0,
            resume: 0,
            index: 0,
            word: 0,
            last: None,
            count: 0,
            missing: 0,
            tag: false,
        }
    }

    // The last send; where there is none, one of which nothing holds.
    pub fn last_send(&self) -> LastSend
        ensures { result ≡ send_of self.now.last }
    {
        self.last.unwrap_or_default()
    }

    // The same after the last send; none where there is no send.
    #[tactic(auto, unfolding(crate::specs::Playing::shortfall))]
    pub fn shortfall(&self) -> u8
        ensures { result ≡ shortfall self.now.last }
    {
        match self.last {
            Some(send) => send.shortfall(),
            None => 0,
        }
    }

    // Whether idling now ends a function early: under way, and its last word not sent.
    pub fn is_unfinished(&self) -> bool
        ensures { result ≡ unfinished self.now }
    {
        !matches!(self.stage, Stage::Idle | Stage::Ended)
    }

    // The function dropped; armed or not, both counts, and a tag not yet used stay.
    #[tactic(auto, unfolding(crate::specs::Playing::idled))]
    pub fn idle(&mut self)
        ensures { self.new ≡ idled self.old }
    {
        *self = Sequencer {
            armed: self.armed,
            count: self.count,
            missing: self.missing,
            tag: self.tag,
            ..Sequencer::opened()
        };
    }

    #[tactic(auto, unfolding(crate::specs::Playing::armed))]
    pub fn arm(&mut self)
        ensures { self.new ≡ armed self.old }
    {
        self.armed = true;
    }

    #[tactic(auto, unfolding(crate::specs::Playing::idled, crate::specs::Playing::disarmed))]
    pub fn disarm(&mut self)
        ensures { self.new ≡ disarmed self.old }
    {
        self.idle();
        self.armed = false;
        self.tag = false;
    }

    // Start, with a delay, of a channel that is armed.
    #[tactic(auto, unfolding(crate::specs::Playing::started))]
    pub fn start(&mut self, delay: u32)
        ensures { self.new ≡ started self.old delay }
    {
        self.stage = Stage::Starting;
        self.left = u64::from(delay) + 10;
        self.resume = 0;
        self.index = 0;
        self.word = 0;
    }

    // Resume of a pause (0 the VME pause), with a delay; nothing where the channel is not in that pause.
    #[tactic(auto, unfolding(crate::specs::Playing::resumed))]
    pub fn resume(&mut self, pause: u8, delay: u32)
        ensures { self.new ≡ resumed self.old pause delay }
    {
        if self.stage == Stage::Paused(pause) {
            self.stage = Stage::Resuming;
            self.resume = u64::from(delay) + 10;
        }
    }

    // How many replies came after the last send; none where there is no send.
    pub fn replies(&self) -> u8
        ensures { result ≡ replies_of self.now.last }
    {
        self.last.map_or(0, |send| send.replies)
    }

    // A reply after the last send, kept or lost.
    #[tactic(auto, unfolding(crate::specs::Playing::answered))]
    pub fn count_reply(&mut self)
        ensures { self.new ≡ answered self.old }
    {
        if let Some(last) = &mut self.last {
            if last.replies < READBACKS {
                last.replies += 1;
            }
        }
    }

    // The count of missing readbacks cleared.
    pub fn clear_missing(&mut self)
        ensures { self.new ≡ with_missing self.old 0 }
    {
        self.missing = 0;
    }

    fn add_missing(&mut self, more: u8)
        ensures { self.new ≡ with_missing self.old (missing_with self.old.missing more) }
    {
        self.missing = self.missing.saturating_add(more);
    }

    // With a count from before added to the missing readbacks counted here; the count from before fits its byte.
    pub fn add_missing_before(&mut self, before: u8)
        ensures next { self.new ≡ with_missing self.old (missing_with before self.old.missing) }
        ensures fits { before ≤ 255 }
    {
        self.add_missing(before);
    }

    // Group End's share: the function and a tag not yet used dropped, the setpoint count cleared.
    #[tactic(auto, unfolding(crate::specs::Playing::idled, crate::specs::Playing::group_ended))]
    pub fn end_group(&mut self)
        ensures { self.new ≡ group_ended self.old }
    {
        self.idle();
        self.count = 0;
        self.tag = false;
    }

    // A tag for the next send, of a channel that is armed.
    #[tactic(auto, unfolding(crate::specs::Playing::tagged))]
    pub fn tag(&mut self)
        ensures { self.new ≡ tagged self.old }
    {
        self.tag |= self.armed;
    }
}
