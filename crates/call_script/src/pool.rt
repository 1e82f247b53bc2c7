// The two pools of words: how they are filled, their parts, and their digest (tests/CALLS.md, Header and The end).
ghost use Rattle.std.specs.Prelude.{◌≡◌};
ghost use Rattle.call_script.specs.Pool.{xorshift, hashed};

// A part of a pool: its first word and its length.
#[derive(Clone, Copy, Debug, PartialEq, Eq)]
pub struct Span {
    pub from: usize,
    pub length: usize,
}

impl Span {
    pub fn new(from: usize, length: usize) -> Span {
        Span { from, length }
    }
}

// The first words of a pool, as many as asked for or all that there are.
pub fn front(pool: &[u32], count: usize) -> &[u32] {
    &pool[..count.min(pool.len())]
}

// The same words, lent to be written: no function can be both.
pub fn front_mut(pool: &mut [u32], count: usize) -> &mut [u32] {
    let end = count.min(pool.len());
    &mut pool[..end]
}

// The words of a span, as far as the pool has them.
pub fn part(pool: &[u32], span: Span) -> &[u32] {
    front(&pool[span.from.min(pool.len())..], span.length)
}

// One step of xorshift32.
#[tactic(auto, unfolding(crate::specs::Pool::left13, crate::specs::Pool::right17, crate::specs::Pool::left5, crate::specs::Pool::xorshift))]
fn xorshifted(seed: u32) -> u32
    ensures { result ≡ xorshift seed }
{
    let first = seed ^ (seed % 0x8_0000 * 0x2000);
    let second = first ^ (first / 0x2_0000);
    second ^ (second % 0x800_0000 * 0x20)
}

// Fills one pool through a mask, and answers the state after it.
fn fill(words: &mut [u32], start: u32, mask: u32) -> u32 {
    let mut state = start;
    for word in words.iter_mut() {
        state = xorshifted(state);
        *word = state & mask;
    }
    state
}

// FNV's prime, and where an FNV-1a digest starts from.
const PRIME: u64 = 0x100_0000_01b3;

const OFFSET: u64 = 0xcbf2_9ce4_8422_2325;

// One step of FNV-1a.
#[tactic(auto, unfolding(crate::specs::Pool::times_prime, crate::specs::Pool::hashed))]
fn hashed_byte(hash: u64, byte: u8) -> u64
    ensures { result ≡ hashed hash byte }
{
    (hash ^ u64::from(byte)).wrapping_mul(PRIME)
}

// A word's four bytes, low first.
fn hashed_word(hash: u64, word: u32) -> u64 {
    word.to_le_bytes()
        .iter()
        .fold(hash, |hash, byte| hashed_byte(hash, *byte))
}

// The digest goes on over these words.
fn hashed_words(words: &[u32], start: u64) -> u64 {
    words
        .iter()
        .fold(start, |hash, word| hashed_word(hash, *word))
}

// Sets a word, if the pool has it, and says whether it does.
fn set(pool: &mut [u32], at: usize, word: u32) -> bool {
    if at < pool.len() {
        pool[at] = word;
        true
    } else {
        false
    }
}

// Both pools.
#[derive(Drop)]
pub struct Pools {
    pub setpoints: [u32; 2048],
    pub readbacks: [u32; 512],
}

impl Pools {
    // The setpoint pool filled through the mask, then the readback pool without it.
    pub fn filled(seed: u32, mask: u32) -> Pools {
        let mut pools = Pools {
            setpoints: [0; 2048],
            readbacks: [0; 512],
        };
        let start = if seed == 0 { 2463534242 } else { seed };
        let state = fill(&mut pools.setpoints, start, mask);
        fill(&mut pools.readbacks, state, 0xffff_ffff);
        pools
    }

    // The first words of either pool, as many as asked for or all that it has.
    pub fn lent(&mut self, of_setpoints: bool, count: usize) -> &mut [u32] {
        if of_setpoints {
            front_mut(&mut self.setpoints, count)
        } else {
            front_mut(&mut self.readbacks, count)
        }
    }

    pub fn digest(&self) -> u64 {
        hashed_words(&self.readbacks, hashed_words(&self.setpoints, OFFSET))
    }

    // Sets a word of the setpoint pool for channel 0, else of the readback pool, if that has it, and says whether it does.
    pub fn set(&mut self, channel: u8, at: u32, word: u32) -> bool {
        if channel == 0 {
            set(&mut self.setpoints, at as usize, word)
        } else {
            set(&mut self.readbacks, at as usize, word)
        }
    }
}
