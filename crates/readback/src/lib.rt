// Readbacks of a channel: which replies are kept, the word stored for one, the end word of a group, and the retired part.
#![tactic(auto)]

ghost use Rattle.std.specs.Prelude.{◌≡◌, set, take};
ghost use Rattle.readback.specs.Storing.{opened, stored_word, place_of, capacity, disposition_of, kept_in, kept_words, end_words, group_ended, retired_part};

use sequencer::LastSend;
use status::weigh;

// What stands after the readbacks of a group.
const END_WORD: u32 = 0x200_0000;

#[derive(Clone, Copy, Debug, PartialEq, Eq)]
pub struct Readbacks {
    // How many the active buffer holds.
    pub stored: u32,
    // How many the inactive one holds.
    pub retired: u32,
}

// What becomes of a well-framed reply.
#[derive(Clone, Copy, Debug, PartialEq, Eq)]
pub enum Disposition {
    // "unasked"
    Unsolicited,
    Lost,
    Kept,
}

// The word stored for a reply with these fields.
#[tactic(auto, unfolding(crate::specs::Storing::stored_word))]
pub fn stored_word(last: &LastSend, user: u8, wrong: bool, id: u8, data: u16) -> u32
    ensures { result ≡ stored_word last.now user wrong id «data» }
{
    let flags = weigh(last.first, 0x8000_0000)
        + weigh(last.paused, 0x4000_0000)
        + weigh(last.last, 0x2000_0000);
    let fields = u32::from(registers::zero_based(user)) % 8 * 0x400_0000
        + weigh(last.tagged, 0x200_0000)
        + weigh(wrong, 0x100_0000);
    flags + fields + u32::from(id) * 0x1_0000 + u32::from(data)
}

// How many readbacks a buffer takes: its last place is kept for the end word.
fn capacity(m: u32) -> u32
    ensures { result ≡ capacity m }
{
    m.saturating_sub(1)
}

// Where a readback lies in the channel's own two buffers.
fn place(second: bool, m: u32, index: u32) -> usize
    ensures { result ≡ place_of second m index }
{
    if second {
        m as usize + index as usize
    } else {
        index as usize
    }
}

// Stores a word, if the place is within the slice.
pub fn store(words: &mut [u32], at: usize, word: u32)
    ensures { words.new ≡ set words.old at word }
{
    // By index: after a write through `get_mut` the proof knows the length alone.
    if at < words.len() {
        words[at] = word;
    }
}

// What becomes of a reply.
#[tactic(auto, unfolding(crate::specs::Storing::disposition_of))]
pub fn dispose(idle: bool, last: Option<LastSend>, stored: u32, m: u32) -> Disposition
    ensures { result ≡ disposition_of idle last stored m }
{
    match last {
        Some(last) if !idle && last.replies < 6 => {
            if stored < capacity(m) {
                Disposition::Kept
            } else {
                Disposition::Lost
            }
        }
        _ => Disposition::Unsolicited,
    }
}

// The stored part of the inactive buffer: the first where the second is active.
pub fn retired_part<'a>(second: bool, count: u32, one: &'a [u32], two: &'a [u32]) -> &'a [u32]
    ensures { result.now ≡ retired_part second count one.now two.now }
{
    let inactive = if second { one } else { two };
    &inactive[..inactive.len().min(count as usize)]
}

impl Readbacks {
    pub fn opened() -> Readbacks
        ensures { result ≡ opened }
    {
        Readbacks {
            stored: 0,
            retired: 0,
        }
    }

    // A word stored next in the active buffer.
    pub fn keep(&mut self, words: &mut [u32], second: bool, m: u32, word: u32)
        ensures next { self.new ≡ kept_in self.old m }
        ensures words { words.new ≡ kept_words self.old words.old second m word }
    {
        if self.stored < capacity(m) {
            store(words, place(second, m, self.stored), word);
            self.stored += 1;
        }
    }

    // The end word after the stored readbacks.
    pub fn mark_end(&self, words: &mut [u32], second: bool, m: u32)
        ensures { words.new ≡ end_words self.now words.old second m }
    {
        store(words, place(second, m, self.stored), END_WORD);
    }

    // Group End's share: the active buffer retires, and the new one is empty.
    pub fn end_group(&mut self)
        ensures { self.new ≡ group_ended self.old }
    {
        self.retired = self.stored;
        self.stored = 0;
    }
}
