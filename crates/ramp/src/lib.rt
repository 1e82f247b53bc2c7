// Ramps from breakpoints: at every index up to the last a code, by linear interpolation, and the remainder of its division. Knows no board.
#![tactic(auto)]

ghost use Rattle.std.specs.Prelude.{◌≡◌, ℕ, ◌+◌, ◌-◌, ◌<◌, ◌≤◌, cond, ltb, eqb, ℤ, pos, ◌+ℤ◌, length, get_or, take};
ghost use Rattle.ramp.specs.Answers.{wrote, count_of};
ghost use Rattle.ramp.specs.Interpolation.{code_between, remainder_between, twos_complement};
ghost use Rattle.ramp.specs.Ramp.{zero_point, last_index, is_increasing, is_valid, code_word, remainder_word, overwritten, ramp_answer, ramp_codes, ramp_remainders};
ghost use Rattle.ramp.specs.Rules.{CodesInRange, Rules, Brackets};

use refusal::Refusal;

#[derive(Clone, Copy, Debug, PartialEq, Eq)]
pub struct Breakpoint {
    pub index: u32,
    pub code: i16,
}

// A code's 16 bits, and the remainder.
#[derive(Clone, Copy, Debug, PartialEq, Eq)]
struct Sample {
    pub code: u32,
    pub remainder: u32,
}

// The breakpoint at an index of the list, which no other function reads.
fn breakpoint_at(points: &[Breakpoint], i: usize) -> Breakpoint
    requires { i < length points.now }
    ensures { result ≡ get_or points.now i zero_point }
{
    points[i]
}

// ---- The work, on values

// A signed code in offset binary: raised by 32,768, so that no sign is left.
fn offset_binary(code: i16) -> u64
    ensures { (code +ℤ pos 32768 ≡ pos result) × (result < 65536) }
{
    (code as i64 + 32768) as u64
}

// The 16 bits, two's complement, of the code z that `offset` stands for.
fn twos_complement(offset: u64) -> u32
    requires { offset < 65536 }
    ensures { ((z : ℤ) → z +ℤ pos 32768 ≡ pos offset → result ≡ twos_complement z) × (result < 65536) }
{
    if offset < 32768 {
        (offset + 32768) as u32
    } else {
        (offset - 32768) as u32
    }
}

// Code and remainder at i, between (p, s) and (q, t). In offset binary the code is the whole part of a mean of s and t, weighted by the distances.
fn interpolate(p: u32, s: i16, q: u32, t: i16, i: u32) -> Sample
    requires { Brackets p q i }
    ensures { (result.code ≡ twos_complement (code_between p s q t i)) × (result.remainder ≡ remainder_between p s q t i) × (result.code < 65536) }
{
    let width = (q - p) as u64;
    let after = (i - p) as u64;
    let before = width - after;
    let from = offset_binary(s);
    let to = offset_binary(t);
    let sum = from * before + to * after;
    let code = twos_complement(sum / width);
    let remainder = sum % width;
    Sample {
        code,
        remainder: remainder as u32,
    }
}

// Whether the indices rise strictly.
fn is_increasing(points: &[Breakpoint]) -> bool
    requires { 1 ≤ length points.now }
    ensures { result ≡ is_increasing points.now }
{
    for k in 1..points.len() {
        if breakpoint_at(points, k).index <= breakpoint_at(points, k - 1).index {
            return false;
        }
    }
    true
}

// Whether the rules hold, for N and two buffers of so many words.
#[tactic(auto, unfolding(crate::specs::Ramp::is_valid))]
fn is_valid(points: &[Breakpoint], n: u32, code_words: usize, remainder_words: usize) -> bool
    ensures { result ≡ is_valid points.now n code_words remainder_words }
{
    let depth = n as usize;
    (2..=64).contains(&points.len())
        && (1..=1048576).contains(&depth)
        && breakpoint_at(points, 0).index == 0
        && breakpoint_at(points, points.len() - 1).index < n
        && depth <= code_words
        && depth <= remainder_words
        && is_increasing(points)
}

// The number, from 0, of the segment that i stands in. k is that of the index before, or 0; `end` is where segment k ends.
fn segment_number(k: usize, end: u32, i: u32) -> usize
    requires { k < 64 }
    ensures { result ≡ cond (ltb end i) (k + 1) k }
{
    if end < i { k + 1 } else { k }
}

// D31 marks the last word.
fn mark_last(code: u32, i: u32, last: u32) -> u32
    requires { code < 65536 }
    ensures { result ≡ code + cond (eqb i last) 0x80000000 0 }
{
    if i == last { code + 0x8000_0000 } else { code }
}

// Both buffers, word by word. Every breakpoint is read, and a code that is read is in its range.
fn fill(points: &[Breakpoint], codes: &mut [u32], remainders: &mut [u32]) -> u32
    requires { (n : ℕ) × Rules points.now n (length codes.old) (length remainders.old) }
    ensures count { result ≡ last_index points.now + 1 }
    ensures codes { codes.new ≡ overwritten (code_word points.now) result codes.old }
    ensures remainders { remainders.new ≡ overwritten (remainder_word points.now) result remainders.old }
    ensures in_range { CodesInRange points.now }
{
    let last = breakpoint_at(points, points.len() - 1).index;
    let count = last + 1;
    let mut k: usize = 0;
    for i in 0..count {
        k = segment_number(k, breakpoint_at(points, k + 1).index, i);
        let from = breakpoint_at(points, k);
        let to = breakpoint_at(points, k + 1);
        let sample = interpolate(from.index, from.code, to.index, to.code, i);
        codes[i as usize] = mark_last(sample.code, i, last);
        remainders[i as usize] = sample.remainder;
    }
    count
}

// ---- The call

// How many words were written to each buffer, or the refusal.
#[tactic(auto, unfolding(crate::specs::Ramp::ramp_answer, crate::specs::Ramp::ramp_codes, crate::specs::Ramp::ramp_remainders))]
pub fn write_ramp(
    points: &[Breakpoint],
    n: u32,
    codes: &mut [u32],
    remainders: &mut [u32],
) -> Result<u32, Refusal>
    ensures answer { count_of result ≡ ramp_answer points.now n (length codes.old) (length remainders.old) }
    ensures codes { codes.new ≡ ramp_codes points.now n codes.old remainders.old }
    ensures remainders { remainders.new ≡ ramp_remainders points.now n codes.old remainders.old }
    ensures in_range { (words : ℕ) → count_of result ≡ wrote words → CodesInRange points.now }
{
    if !is_valid(points, n, codes.len(), remainders.len()) {
        return Err(Refusal::InvalidRamp);
    }
    Ok(fill(points, codes, remainders))
}

// The call, on the first `count` breakpoints of an array, or on all of them.
pub fn write_ramp_by_value(
    points: [Breakpoint; 256],
    count: usize,
    n: u32,
    codes: &mut [u32],
    remainders: &mut [u32],
) -> Result<u32, Refusal>
    ensures answer { count_of result ≡ ramp_answer (take count points) n (length codes.old) (length remainders.old) }
    ensures codes { codes.new ≡ ramp_codes (take count points) n codes.old remainders.old }
    ensures remainders { remainders.new ≡ ramp_remainders (take count points) n codes.old remainders.old }
    ensures in_range { (words : ℕ) → count_of result ≡ wrote words → CodesInRange (take count points) }
{
    write_ramp(&points[..count.min(256)], n, codes, remainders)
}
