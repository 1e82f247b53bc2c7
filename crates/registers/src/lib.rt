// The registers of a channel that hold what is written to them, and those that only show.
// Interrupt Enable and both statuses stand in the crate `status`.
#![tactic(auto)]

ghost use Rattle.std.specs.Prelude.{◌≡◌, ◌+◌, ◌-◌};
ghost use Rattle.registers.specs.Map.{opened, period_of, matches, place_of, triggers_of, delay_of, second_active, delay_written, delay_shown, stored, loaded, flips, group_ended};

// The readback buffers' place among the active ones.
const READBACKS: usize = 8;

// What an event does where its code is that of a register: Resume k, from 1 to 4, is of pause k.
#[derive(Clone, Copy, Debug, PartialEq, Eq)]
pub enum Event {
    Start,
    Resume(u8),
    GroupEnd,
    Tag,
}

#[derive(Clone, Copy, Debug, PartialEq, Eq)]
pub struct Registers {
    // 0A
    pub clock: u16,
    // 0E, bit by bit: users 1-8 from D0, the readback buffers at D8; set: buffer 2 is active
    pub active: [bool; 16],
    // 10 and 12
    pub shown: u32,
    // 14
    pub id: u8,
    // 20-2C: Start, Resume 1-4, Group End, Tag
    pub events: [u16; 7],
    // 30-3E, by user
    pub switches: [bool; 8],
    // 40-DE: eight users' start delays, then resume 1's, and so on to resume 4's
    pub delays: [u32; 40],
}

// The ticks between two sends.
pub fn period(clock: u16) -> u32
    ensures { result ≡ period_of clock }
{
    match clock {
        0 => 10000,
        1 => 1000,
        2 => 100,
        _ => 10,
    }
}

// Whether an event register is active and holds this code.
fn holds(register: u16, code: u8) -> bool
    ensures { result ≡ matches register code }
{
    status::is_set(register, 8) && register & 0xff == u16::from(code)
}

// A user's place from 0.
pub fn zero_based(user: u8) -> u8
    ensures { result ≡ user - 1 }
{
    user.saturating_sub(1)
}

// A delay with the half written that stands at this offset: the high byte, then the low word.
#[tactic(auto, using(crate::proofs::Masks::high_byte, crate::proofs::Masks::joined))]
fn delay_written(offset: u16, old: u32, value: u16) -> u32
    ensures { result ≡ delay_written offset old value }
{
    if offset % 4 == 0 {
        ((u32::from(value) & 0xff) << 16) | (old & 0xffff)
    } else {
        (old & 0xff_0000) | u32::from(value)
    }
}

// The half of a delay, or of the count, that a read shows at this offset.
fn half_shown(offset: u16, number: u32) -> u16
    ensures { result ≡ delay_shown offset number }
{
    let half = if offset % 4 == 0 {
        (number >> 16) & 0xff
    } else {
        number & 0xffff
    };
    half as u16
}

// The active buffers whose switch is set switch.
#[tactic(auto, using(crate::proofs::Flips::flips_none, crate::proofs::Flips::next_set, crate::proofs::Flips::next_left))]
fn flip(active: &mut [bool; 16], switches: &[bool; 8])
    ensures { active.new ≡ flips active.old switches.now }
{
    for (place, &switched) in switches.iter().enumerate() {
        if switched {
            active[place] = !active[place];
        }
    }
}

impl Event {
    // Its register's place from 20h, and in `events`.
    pub fn place(self) -> usize
        ensures { result ≡ place_of self }
    {
        match self {
            Event::Start => 0,
            Event::Resume(pause) => usize::from(pause),
            Event::GroupEnd => 5,
            Event::Tag => 6,
        }
    }
}

impl Registers {
    pub fn opened() -> Registers
        ensures { result ≡ opened }
    {
        Registers {
            clock: 0,
            active: [false; 16],
            shown: 0,
            id: 0,
            events: [0; 7],
            switches: [false; 8],
            delays: [0; 40],
        }
    }

    // Whether a code is that of an event's register.
    pub fn triggers(&self, event: Event, code: u8) -> bool
        ensures { result ≡ triggers_of self.now (place_of event) code }
    {
        let register = self.events.get(event.place());
        holds(register.copied().unwrap_or(0), code)
    }

    // The start delay (bank 0) or the delay of resume 1-4 of a user.
    pub fn delay(&self, bank: u8, user: u8) -> u32
        ensures { result ≡ delay_of self.now bank user }
    {
        let place = usize::from(bank) * 8 + usize::from(zero_based(user));
        self.delays.get(place).copied().unwrap_or(0)
    }

    // Whether buffer 2 is the active one of a user's setpoint buffers.
    pub fn second_active(&self, user: u8) -> bool
        ensures { result ≡ second_active self.now (user - 1) }
    {
        let place = usize::from(zero_based(user));
        self.active.get(place).copied().unwrap_or(false)
    }

    // Whether buffer 2 is the active one of the readback buffers.
    pub fn readback_second_active(&self) -> bool
        ensures { result ≡ second_active self.now 8 }
    {
        self.active[READBACKS]
    }

    // A value written at an offset that holds it.
    #[tactic(auto, unfolding(crate::specs::Map::stored))]
    pub fn write(&mut self, offset: u16, value: u16)
        ensures { self.new ≡ stored self.old offset value }
    {
        match offset {
            0x0a => self.clock = value,
            0x14 => self.id = (value & 0xff) as u8,
            0x20..0x2e => {
                let place = usize::from(offset - 0x20) / 2;
                self.events[place] = value & 0x1ff;
            }
            0x30..0x40 => {
                let place = usize::from(offset - 0x30) / 2;
                self.switches[place] = status::is_set(value, 0);
            }
            0x40..0xe0 => {
                let place = usize::from(offset - 0x40) / 4;
                self.delays[place] = delay_written(offset, self.delays[place], value);
            }
            _ => {}
        }
    }

    // What a read shows at an offset.
    #[tactic(auto, unfolding(crate::specs::Map::loaded))]
    pub fn read(&self, offset: u16) -> u16
        ensures { result ≡ loaded self.now offset }
    {
        match offset {
            0x0a => self.clock,
            0x0e => status::word_of_bits(self.active),
            0x10 | 0x12 => half_shown(offset, self.shown),
            0x14 => u16::from(self.id),
            0x20..0x2e => self.events[usize::from(offset - 0x20) / 2],
            0x40..0xe0 => half_shown(offset, self.delays[usize::from(offset - 0x40) / 4]),
            _ => 0,
        }
    }

    // Group End's share: the readback buffers switch, users with their bit set switch and the bits clear, the count is shown.
    #[tactic(auto, unfolding(crate::specs::Map::group_ended))]
    pub fn end_group(&mut self, count: u32)
        ensures { self.new ≡ group_ended self.old count }
    {
        self.active[READBACKS] = !self.active[READBACKS];
        flip(&mut self.active, &self.switches);
        self.shown = count;
        self.switches = [false; 8];
    }
}
