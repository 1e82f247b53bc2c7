// Who makes a call, and what the opening lets them do at each channel. It knows no board.
#![tactic(auto)]

ghost use Rattle.std.specs.Prelude.{◌≡◌};
ghost use Rattle.permissions.specs.Rights.{no_rights, no_board_rights, rights_of, rights_at, may_read, may_write, clears, reads_register, may_read_register, is_examiner, may_tick};

// Document 02, card 9, calls this a seat.
#[derive(Clone, Copy, Debug, PartialEq, Eq)]
pub enum Role {
    Examiner,
    Candidate,
    Watcher,
}

#[derive(Clone, Copy, Debug, PartialEq, Eq)]
pub struct Rights {
    pub read: bool,
    pub write: bool,
}

// The rights at one channel of those who have not all.
#[derive(Clone, Copy, Debug, PartialEq, Eq)]
pub struct ChannelRights {
    pub candidate: Rights,
    pub watcher: Rights,
}

// Those at channels 1 to 4.
#[derive(Clone, Copy, Debug, PartialEq, Eq)]
pub struct BoardRights {
    pub channels: [ChannelRights; 4],
}

impl Role {
    // Main registers, user changes and the interrupt level.
    pub fn is_examiner(self) -> bool
        ensures { result ≡ is_examiner self }
    {
        self == Role::Examiner
    }

    // Ticks and events.
    pub fn may_tick(self) -> bool
        ensures { result ≡ may_tick self }
    {
        self != Role::Watcher
    }
}

// Whether a read of the register clears it.
fn clears(offset: u16) -> bool
    ensures { result ≡ clears offset }
{
    matches!(offset, 0x02 | 0x04 | 0x0c)
}

impl Rights {
    // A register that clears when it is read needs both.
    fn may_read_register(self, offset: u16) -> bool
        ensures { result ≡ reads_register self offset }
    {
        self.read && (self.write || !clears(offset))
    }
}

impl ChannelRights {
    fn none() -> ChannelRights
        ensures { result ≡ no_rights }
    {
        let rights = Rights {
            read: false,
            write: false,
        };
        ChannelRights {
            candidate: rights,
            watcher: rights,
        }
    }

    // The examiner has all.
    pub fn of(&self, role: Role) -> Rights
        ensures { result ≡ rights_of self.now role }
    {
        match role {
            Role::Examiner => Rights {
                read: true,
                write: true,
            },
            Role::Candidate => self.candidate,
            Role::Watcher => self.watcher,
        }
    }
}

impl BoardRights {
    // The candidate and the watcher have none.
    pub fn none() -> BoardRights
        ensures { result ≡ no_board_rights }
    {
        BoardRights {
            channels: [ChannelRights::none(); 4],
        }
    }

    // Those at a channel; at a number that is no channel's, none for candidate and watcher.
    pub fn at(&self, number: u32) -> ChannelRights
        ensures { result ≡ rights_at self.now number }
    {
        if (1..=4).contains(&number) {
            self.channels[number as usize - 1]
        } else {
            ChannelRights::none()
        }
    }

    pub fn may_read(&self, role: Role, number: u32) -> bool
        ensures { result ≡ may_read (rights_at self.now number) role }
    {
        self.at(number).of(role).read
    }

    pub fn may_write(&self, role: Role, number: u32) -> bool
        ensures { result ≡ may_write (rights_at self.now number) role }
    {
        self.at(number).of(role).write
    }

    pub fn may_read_register(&self, role: Role, number: u32, offset: u16) -> bool
        ensures { result ≡ may_read_register (rights_at self.now number) role offset }
    {
        self.at(number).of(role).may_read_register(offset)
    }
}
