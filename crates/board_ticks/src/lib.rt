// Ticks in a row of the board, nothing else happening meanwhile: each channel by itself.
#![tactic(auto)]

ghost use Rattle.std.specs.Prelude.{◌≡◌, ◌+◌, ◌*◌, ◌<◌, [], ◌∷◌, length};
ghost use Rattle.board_state.specs.State.{with_channel_at};
ghost use Rattle.board_ticks.specs.Ticks.{channel_ticks, channel_frames, channel_frames_at, ticks_board, ticks_refused, ticks_frames, ticks_frames_at, quiet_ticks};

use board_state::Board;
use channel_ticks::quiet::channel_quiet_ticks;

// What ticks in a row answered: so many were refused, and so many frames of channels 1 to 4.
#[derive(Clone, Copy, Debug, PartialEq, Eq)]
pub struct TickCounts {
    pub refused: u32,
    pub frames: [u32; 4],
}

// The ticks of the channel at an index, over its part of the setpoints.
#[tactic(auto, unfolding(crate::specs::Ticks::channel_ticks, crate::specs::Ticks::channel_frames))]
fn tick_channel(b: &mut Board, setpoints: &[u32], index: usize, count: u32) -> u32
    requires index { index < 4 }
    requires lent { length setpoints.now ≡ b.old.n * 64 }
    ensures next { b.new ≡ with_channel_at b.old (index + 1) (channel_ticks b.old setpoints.now (index + 1) count) }
    ensures frames { result ≡ channel_frames b.old setpoints.now (index + 1) count }
{
    let own = &setpoints[b.setpoint_part(index)];
    channel_ticks::ticks(&mut b.channels[index], own, b.n, b.user, count, &mut [])
}

// So many ticks.
#[tactic(auto, unfolding(crate::specs::Ticks::ticks_board, crate::specs::Ticks::ticks_refused, crate::specs::Ticks::ticks_frames), using(crate::proofs::Channels::depth, crate::proofs::Channels::all_counted))]
pub fn ticks(b: &mut Board, setpoints: &[u32], count: u32) -> TickCounts
    ensures board { b.new ≡ ticks_board b.old setpoints.now count }
    ensures refused { result.refused ≡ ticks_refused b.old setpoints.now count }
    ensures frames { result.frames ≡ ticks_frames b.old setpoints.now 1 count ∷ ticks_frames b.old setpoints.now 2 count ∷ ticks_frames b.old setpoints.now 3 count ∷ ticks_frames b.old setpoints.now 4 count ∷ [] }
{
    let mut frames = [0; 4];
    if b.check_setpoints(setpoints).is_err() {
        return TickCounts {
            refused: count,
            frames,
        };
    }
    for index in 0..4 {
        frames[index] = tick_channel(b, setpoints, index, count);
    }
    TickCounts { refused: 0, frames }
}

// The frames of channel 1 to 4 in the next so many ticks: that of tick k at k - 1, as far as the slice reaches. The board stays as it is.
#[tactic(auto, unfolding(crate::specs::Ticks::ticks_frames_at, crate::specs::Ticks::channel_frames_at))]
pub fn frames(b: &Board, setpoints: &[u32], number: u32, count: u32, captured: &mut [u64])
    ensures { captured.new ≡ ticks_frames_at b.now setpoints.now number count captured.old }
{
    let Ok(index) = board_state::check_channel(number) else {
        return;
    };
    if b.check_setpoints(setpoints).is_err() {
        return;
    }
    let own = &setpoints[b.setpoint_part(index)];
    // The channel alone is copied: to copy the board would take longer than the ticks.
    let mut channel = b.channels[index];
    channel_ticks::ticks(&mut channel, own, b.n, b.user, count, captured);
}

// How many of the next ticks only count down, at the least.
#[tactic(auto, unfolding(crate::specs::Ticks::quiet_ticks))]
pub fn quiet_ticks(b: &Board) -> u64
    ensures { result ≡ quiet_ticks b.now }
{
    let low = channel_quiet_ticks(&b.channels[0]).min(channel_quiet_ticks(&b.channels[1]));
    let high = channel_quiet_ticks(&b.channels[2]).min(channel_quiet_ticks(&b.channels[3]));
    low.min(high)
}
