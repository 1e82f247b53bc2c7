// The board's state: depths, current user, Main registers and four channels. It holds no rule of what a channel does.
#![tactic(auto)]

ghost use Rattle.std.specs.Prelude.{min, ◌≡◌, ◌*◌, ◌+◌, ◌^◌, ◌<◌, ◌≤◌, length};
ghost use Rattle.channel.specs.Calls.{main_bit};
ghost use Rattle.board_state.specs.Parts.{part_start};
ghost use Rattle.board_state.specs.Checks.{channel_checked, setpoint_size, readback_size, setpoints_checked, readbacks_checked};
ghost use Rattle.board_state.specs.State.{opened, channel_at, with_channel_at, with_user, event_came};
ghost use Rattle.board_state.specs.Main.{main_word, main_status, taken_at, status_read, main_written, main_value, main_read, level_of, enabled_bit};

use channel_core::Channel;
use refusal::Refusal;
use status::weigh;
use std::ops::Range;

// Main's registers: Level, Vector, Enable, and in each status copy whether an event came.
#[derive(Clone, Copy, Debug, PartialEq, Eq)]
pub struct Main {
    pub level: u8,
    pub vector: u16,
    pub enable: u16,
    pub interrupt: bool,
    pub polling: bool,
}

#[derive(Clone, Copy, Debug, PartialEq, Eq)]
pub struct Board {
    pub n: u32,
    pub m: u32,
    pub user: u8,
    pub main: Main,
    pub channels: [Channel; 4],
}

// The index of channel 1 to 4; there is no other channel.
pub fn check_channel(number: u32) -> Result<usize, Refusal>
    ensures { channel_checked result number }
{
    if channel::is_outside(1, 4, number) {
        Err(Refusal::OutOfRange)
    } else {
        Ok((number - 1) as usize)
    }
}

// Where a channel's part of a memory starts: the parts of channels 1 to 4 lie in a row, each of so many words to a unit of depth.
pub fn part_start(number: u8, depth: u32, words: u8) -> usize
    ensures { result ≡ part_start number (depth * words) }
{
    usize::from(registers::zero_based(number)) * (depth as usize * usize::from(words))
}

// Where the part of one of the four channels lies in a memory: the parts lie in a row, each of this size.
fn part(index: usize, size: usize) -> Range<usize>
    requires { index * size + size < 2 ^ 64 }
    ensures start { result.start ≡ index * size }
    ensures end { result.end ≡ index * size + size }
{
    let start = index * size;
    start..start + size
}

// A Main status: D11 is 1, D10-D8 the user less 1, D7-D4 channels 4-1, D3 an event came.
#[tactic(auto, unfolding(crate::specs::Main::main_word))]
fn main_word(user: u8, first: bool, second: bool, third: bool, fourth: bool, event: bool) -> u16
    ensures { result ≡ main_word user first second third fourth event }
{
    let channels = weigh(fourth, 128) + weigh(third, 64) + weigh(second, 32) + weigh(first, 16);
    (2048 + u32::from(registers::zero_based(user)) % 8 * 256 + channels + weigh(event, 8)) as u16
}

// A channel's bit in a Main status.
fn main_bit(channel: &Channel, polling: bool) -> bool
    ensures { result ≡ main_bit channel.now polling }
{
    if polling {
        channel.status.polling.main
    } else {
        channel.status.interrupt.main
    }
}

impl Board {
    // A board as it is opened at these depths.
    #[tactic(auto, unfolding(crate::specs::State::opened))]
    pub fn opened(n: u32, m: u32) -> Board
        ensures { result ≡ opened n m }
    {
        Board {
            n,
            m,
            user: 1,
            main: Main {
                level: 0,
                vector: 0,
                enable: 0,
                interrupt: false,
                polling: false,
            },
            channels: [Channel::opened(); 4],
        }
    }

    // Channel 1 to 4. Of a number past them, a channel as it is opened.
    pub fn channel(&self, number: u8) -> Channel
        ensures { result ≡ channel_at self.now number }
    {
        let at = usize::from(registers::zero_based(number));
        if at < 4 {
            self.channels[at]
        } else {
            Channel::opened()
        }
    }

    // Channel 1 to 4 replaced. By a number past them, nothing is.
    pub fn set_channel(&mut self, number: u8, channel: Channel)
        ensures { self.new ≡ with_channel_at self.old number channel }
    {
        let index = usize::from(registers::zero_based(number));
        if index < 4 {
            self.channels[index] = channel;
        }
    }

    pub fn set_user(&mut self, user: u8)
        ensures { self.new ≡ with_user self.old user }
    {
        self.user = user;
    }

    // Refused where the setpoints are not 64 words to the depth.
    pub fn check_setpoints(&self, setpoints: &[u32]) -> Result<(), Refusal>
        ensures { setpoints_checked result self.now (length setpoints.now) }
    {
        if setpoints.len() == self.n as usize * 64 {
            Ok(())
        } else {
            Err(Refusal::SizeMismatch)
        }
    }

    // Refused where the readbacks are not 8 words to the depth.
    pub fn check_readbacks(&self, readbacks: &[u32]) -> Result<(), Refusal>
        ensures { readbacks_checked result self.now (length readbacks.now) }
    {
        if readbacks.len() == self.m as usize * 8 {
            Ok(())
        } else {
            Err(Refusal::SizeMismatch)
        }
    }

    // Where the setpoints of the channel at an index lie; past the fourth there is none, and the fourth's is meant.
    pub fn setpoint_part(&self, index: usize) -> Range<usize>
        ensures start { result.start ≡ min index 3 * setpoint_size self.now }
        ensures end { result.end ≡ min index 3 * setpoint_size self.now + setpoint_size self.now }
        ensures within { result.end ≤ self.now.n * 64 }
    {
        part(index.min(3), self.n as usize * 16)
    }

    // Where the readbacks of the channel at an index lie; so too.
    pub fn readback_part(&self, index: usize) -> Range<usize>
        ensures start { result.start ≡ min index 3 * readback_size self.now }
        ensures end { result.end ≡ min index 3 * readback_size self.now + readback_size self.now }
        ensures within { result.end ≤ self.now.m * 8 }
    {
        part(index.min(3), self.m as usize * 2)
    }

    // An event came: D3 of both Main statuses.
    pub fn note_event(&mut self)
        ensures { self.new ≡ event_came self.old }
    {
        self.main.interrupt = true;
        self.main.polling = true;
    }

    // Main's Interrupt Status, or its Polling Status. The definitions name the four channels, and take a Bool for the copy.
    #[tactic(auto, unfolding(crate::specs::Main::main_status))]
    fn main_status(&self, polling: bool) -> u16
        ensures { result ≡ main_status self.now polling }
    {
        main_word(
            self.user,
            main_bit(&self.channels[0], polling),
            main_bit(&self.channels[1], polling),
            main_bit(&self.channels[2], polling),
            main_bit(&self.channels[3], polling),
            if polling {
                self.main.polling
            } else {
                self.main.interrupt
            },
        )
    }

    // A Main status read: D7-D3 of that copy clear.
    #[tactic(auto, unfolding(crate::specs::Main::status_read, crate::specs::Main::taken_at), using(crate::proofs::Taken::one_more))]
    fn clear_status(&mut self, polling: bool)
        ensures { self.new ≡ status_read self.old polling }
    {
        // By index: of an element behind `iter_mut` the proof knows nothing afterwards.
        for index in 0..4 {
            channel::take_main(&mut self.channels[index], polling);
        }
        if polling {
            self.main.polling = false;
        } else {
            self.main.interrupt = false;
        }
    }

    // A write to Level, Vector or Enable.
    #[tactic(auto, unfolding(crate::specs::Main::main_written, crate::specs::Main::main_stored))]
    pub fn write_main(&mut self, offset: u16, value: u16)
        ensures { self.new ≡ main_written self.old offset value }
    {
        match offset {
            0x22 => self.main.level = (value % 8) as u8,
            0x24 => self.main.vector = value,
            0x26 => self.main.enable = status::kept_enable(value % 256),
            _ => {}
        }
    }

    // What a read of a Main register shows.
    #[tactic(auto, unfolding(crate::specs::Main::main_value))]
    pub fn main_value(&self, offset: u16) -> u16
        ensures { result ≡ main_value self.now offset }
    {
        match offset {
            0x22 => u16::from(self.main.level),
            0x24 => self.main.vector,
            0x26 => self.main.enable,
            _ => self.main_status(offset == 0x2a),
        }
    }

    // A read of a Main register: what it shows; a status read clears.
    #[tactic(auto, unfolding(crate::specs::Main::main_read))]
    pub fn read_main(&mut self, offset: u16) -> u16
        ensures next { self.new ≡ main_read self.old offset }
        ensures value { result ≡ main_value self.old offset }
    {
        let value = self.main_value(offset);
        match offset {
            0x28 => self.clear_status(false),
            0x2a => self.clear_status(true),
            _ => {}
        }
        value
    }

    // Whether a channel's bit of Main's Interrupt Status is set and enabled.
    fn interrupts(&self, index: usize, bit: u32) -> bool
        requires { index < 4 }
        ensures { result ≡ enabled_bit (channel_at self.now (index + 1)) self.now.main.enable bit }
    {
        main_bit(&self.channels[index], false) && status::is_set(self.main.enable, bit)
    }

    // Level, if a channel's interrupt is set and enabled.
    #[tactic(auto, unfolding(crate::specs::Main::level_of))]
    pub fn interrupt_level(&self) -> u8
        ensures { result ≡ level_of self.now }
    {
        if self.interrupts(0, 4)
            || self.interrupts(1, 5)
            || self.interrupts(2, 6)
            || self.interrupts(3, 7)
        {
            self.main.level
        } else {
            0
        }
    }
}
