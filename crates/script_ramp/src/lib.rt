// A call script's ramp (tests/CALLS.md, Records: kind 14). It names no board: its breakpoints are words of the readback pool, its buffers words of the setpoint pool.
#![tactic(auto)]

use call_script::pool::{self, Pools};
use call_script::script::Record;
use ramp::Breakpoint;
use refusal::Refusal;

// The low 16 bits of a word as a signed number.
fn signed(word: u32) -> i16 {
    ((word % 65536) as u16).cast_signed()
}

// As many breakpoints as the pool has words for, two for each: its index, then its code.
fn breakpoints(words: &[u32]) -> [Breakpoint; 256] {
    let mut points = [Breakpoint { index: 0, code: 0 }; 256];
    for (point, pair) in points.iter_mut().zip(words.chunks_exact(2)) {
        *point = Breakpoint {
            index: pair[0],
            code: signed(pair[1]),
        };
    }
    points
}

// Each half of the setpoint pool: for the codes the first, for the remainders the second.
const HALF: usize = 1024;

pub fn call(pools: &mut Pools, record: Record) -> Result<u32, Refusal> {
    let (codes, remainders) = pools.setpoints.split_at_mut(HALF);
    ramp::write_ramp_by_value(
        breakpoints(&pools.readbacks),
        (record.y % 65536) as usize,
        record.x,
        pool::front_mut(codes, (record.z % 65536) as usize),
        pool::front_mut(remainders, (record.z / 65536) as usize),
    )
}
