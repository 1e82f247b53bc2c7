// Command frames of one channel, which leave between functions: their registers E0-FE, the frame that waits, and the replies to the last one sent.
#![tactic(auto)]

ghost use Rattle.std.specs.Prelude.{◌≡◌};
ghost use Rattle.command_frames.specs.Commanding.{opened, requested, is_due, stored, loaded, command_frame, ticked, group_ended, dropped, takes, id_word, received};

// What a command frame waits for.
#[derive(Clone, Copy, Debug, PartialEq, Eq)]
pub enum Trigger {
    NextTick,
    GroupEnd,
}

#[derive(Clone, Copy, Debug, PartialEq, Eq)]
pub struct CommandFrames {
    // E0: auxiliary bits in the high byte, the Frame ID in the low one
    pub header: u16,
    // E2: the data
    pub word: u16,
    // What FC asked for: the frame waits for this, or none waits.
    pub waiting: Option<Trigger>,
    // Whether replies go to E4-FA.
    pub receiving: bool,
    // FE
    pub count: u8,
    // E4-FA: six times the ID word of a reply, then its data
    pub replies: [u16; 12],
}

// What waits after a write to FC.
fn requested(waiting: Option<Trigger>, value: u16) -> Option<Trigger>
    ensures { result ≡ requested waiting value }
{
    if status::is_set(value, 0) {
        Some(Trigger::NextTick)
    } else if status::is_set(value, 1) {
        Some(Trigger::GroupEnd)
    } else {
        waiting
    }
}

// The ID word of a reply: D8 for a wrong CRC.
fn id_word(id: u8, wrong: bool) -> u16
    ensures { result ≡ id_word id wrong }
{
    u16::from(wrong) * 0x100 + u16::from(id)
}

impl CommandFrames {
    pub fn opened() -> CommandFrames
        ensures { result ≡ opened }
    {
        CommandFrames {
            header: 0,
            word: 0,
            waiting: None,
            receiving: false,
            count: 0,
            replies: [0; 12],
        }
    }

    // A value written at an offset that holds it, or to FC.
    #[tactic(auto, unfolding(crate::specs::Commanding::stored))]
    pub fn write(&mut self, offset: u16, value: u16)
        ensures { self.new ≡ stored self.old offset value }
    {
        match offset {
            0xe0 => self.header = value,
            0xe2 => self.word = value,
            0xfc => self.waiting = requested(self.waiting, value),
            _ => {}
        }
    }

    // What a read shows at an offset.
    #[tactic(auto, unfolding(crate::specs::Commanding::loaded))]
    pub fn read(&self, offset: u16) -> u16
        ensures { result ≡ loaded self.now offset }
    {
        match offset {
            0xe0 => self.header,
            0xe2 => self.word,
            0xe4..0xfc => self.replies[usize::from(offset - 0xe4) / 2],
            0xfe => u16::from(self.count),
            _ => 0,
        }
    }

    // Whether a command frame leaves on the next tick.
    pub fn is_due(&self) -> bool
        ensures { result ≡ is_due self.now.waiting }
    {
        self.waiting == Some(Trigger::NextTick)
    }

    // The frame that leaves, if it leaves now.
    #[tactic(auto, unfolding(crate::specs::Commanding::command_frame))]
    pub fn frame(&self) -> u64
        ensures { result ≡ command_frame self.now }
    {
        let [auxiliary, id] = self.header.to_be_bytes();
        frame::encode(id, self.word, auxiliary)
    }

    // A tick; `setpoint`: a setpoint leaves on it.
    #[tactic(auto, unfolding(crate::specs::Commanding::ticked))]
    pub fn tick(&mut self, setpoint: bool)
        ensures { self.new ≡ ticked self.old setpoint }
    {
        let due = self.is_due();
        if due {
            self.waiting = None;
        }
        if setpoint {
            self.receiving = false;
        } else if due {
            self.receiving = true;
            self.count = 0;
        }
    }

    // Group End's share: a frame that waited for it is due, and replies go to E4-FA no longer.
    #[tactic(auto, unfolding(crate::specs::Commanding::group_ended))]
    pub fn end_group(&mut self)
        ensures { self.new ≡ group_ended self.old }
    {
        if self.waiting == Some(Trigger::GroupEnd) {
            self.waiting = Some(Trigger::NextTick);
        }
        self.receiving = false;
    }

    // Disarm's share: what waits is dropped.
    #[tactic(auto, unfolding(crate::specs::Commanding::dropped))]
    pub fn drop_waiting(&mut self)
        ensures { self.new ≡ dropped self.old }
    {
        self.waiting = None;
    }

    // Whether the next reply goes to E4-FA.
    #[tactic(auto, unfolding(crate::specs::Commanding::takes))]
    pub fn takes(&self) -> bool
        ensures { result ≡ takes self.now }
    {
        self.receiving && self.count < 6
    }

    // A reply that goes to E4-FA, if it does.
    #[tactic(auto, unfolding(crate::specs::Commanding::received), using(crate::proofs::Laws::taken_few))]
    pub fn receive(&mut self, wrong: bool, id: u8, data: u16)
        ensures { self.new ≡ received self.old wrong id «data» }
    {
        if self.takes() {
            let place = 2 * usize::from(self.count);
            self.replies[place] = id_word(id, wrong);
            self.replies[place + 1] = data;
            self.count += 1;
        }
    }
}
