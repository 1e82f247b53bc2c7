// Opening, and the calls that every channel shares: tick, event, user change, and the interrupt level. Each lends a channel only its own part of the memory, and goes by that channel's own rules.
#![tactic(auto)]

ghost use Rattle.std.specs.Prelude.{◌≡◌, ◌+◌, ◌*◌, ◌<◌, length};
ghost use Rattle.channel_core.specs.Answers.{line_of, outcome_of};
ghost use Rattle.board_state.specs.Main.{level_of};
ghost use Rattle.board_state.specs.State.{with_channel_at};
ghost use Rattle.board.specs.Answers.{frames_of};
ghost use Rattle.board.specs.Calls.{board_of, opening_of, open_board, open_answer, tick_channel, tick_frame, tick_board, tick_board_answer, event_board_at, event_words_at, event_board, event_answer, event_words, changed_at, user_board, user_answer};

use board_state::Board;
use refusal::Refusal;

// Opens a board on the memory lent.
#[tactic(auto, unfolding(crate::specs::Calls::open_board, crate::specs::Calls::open_answer, crate::specs::Calls::open_refusal))]
pub fn open(n: u32, m: u32, setpoints: &[u32], readbacks: &[u32]) -> Result<Board, Refusal>
    ensures board { board_of result ≡ open_board n m (length setpoints.now) (length readbacks.now) }
    ensures answer { opening_of result ≡ open_answer n m (length setpoints.now) (length readbacks.now) }
{
    if channel::is_outside(1, 1048576, n)
        || channel::is_outside(1, 8388608, m)
        || setpoints.len() != n as usize * 64
        || readbacks.len() != m as usize * 8
    {
        Err(Refusal::SizeMismatch)
    } else {
        Ok(Board::opened(n, m))
    }
}

// Opens the board anew on the memory lent. Where that is refused the closed board is in its place: the one before is gone.
pub fn reopen(
    b: &mut Board,
    n: u32,
    m: u32,
    setpoints: &[u32],
    readbacks: &[u32],
) -> Result<(), Refusal>
    ensures next { b.new ≡ open_board n m (length setpoints.now) (length readbacks.now) }
    ensures answer { outcome_of result ≡ open_answer n m (length setpoints.now) (length readbacks.now) }
{
    match open(n, m, setpoints, readbacks) {
        Ok(opened) => {
            *b = opened;
            Ok(())
        }
        Err(reason) => {
            *b = Board::opened(0, 0);
            Err(reason)
        }
    }
}

// One channel's tick, over its part of the setpoints.
#[tactic(auto, unfolding(crate::specs::Calls::tick_channel, crate::specs::Calls::tick_frame))]
fn tick_channel(b: &mut Board, setpoints: &[u32], index: usize) -> Option<u64>
    requires index { index < 4 }
    requires lent { length setpoints.now ≡ b.old.n * 64 }
    ensures next { b.new ≡ with_channel_at b.old (index + 1) (tick_channel b.old setpoints.now (index + 1)) }
    ensures frame { line_of result ≡ tick_frame b.old setpoints.now (index + 1) }
{
    let part = b.setpoint_part(index);
    b.channels[index].tick(&setpoints[part], b.n, b.user)
}

#[tactic(auto, unfolding(crate::specs::Calls::tick_board, crate::specs::Calls::tick_board_answer), using(crate::proofs::Ticks::tick_depth, crate::proofs::Ticks::next_channel))]
pub fn tick(b: &mut Board, setpoints: &[u32]) -> Result<[Option<u64>; 4], Refusal>
    ensures next { b.new ≡ tick_board b.old setpoints.now }
    ensures frames { frames_of result ≡ tick_board_answer b.old setpoints.now }
{
    b.check_setpoints(setpoints)?;
    let mut frames = [None; 4];
    for index in 0..4 {
        frames[index] = tick_channel(b, setpoints, index);
    }
    Ok(frames)
}

// One channel's share of an event, over its part of the readbacks.
#[tactic(auto, unfolding(crate::specs::Calls::event_board_at, crate::specs::Calls::event_words_at))]
fn event_channel(b: &mut Board, readbacks: &mut [u32], index: usize, code: u8)
    requires index { index < 4 }
    requires lent { length readbacks.old ≡ b.old.m * 8 }
    ensures next { b.new ≡ event_board_at b.old code (index + 1) }
    ensures words { readbacks.new ≡ event_words_at b.old readbacks.old code (index + 1) }
{
    let part = b.readback_part(index);
    b.channels[index].event(&mut readbacks[part], b.m, b.user, code);
}

#[tactic(auto, unfolding(crate::specs::Calls::event_board, crate::specs::Calls::event_answer, crate::specs::Calls::event_words), using(crate::proofs::Events::boards_depth, crate::proofs::Events::boards_none, crate::proofs::Events::parts_none, crate::proofs::Events::boards_next, crate::proofs::Events::parts_next))]
pub fn event(b: &mut Board, readbacks: &mut [u32], code: u8) -> Result<(), Refusal>
    ensures next { b.new ≡ event_board b.old (length readbacks.old) code }
    ensures answer { outcome_of result ≡ event_answer b.old (length readbacks.old) }
    ensures words { readbacks.new ≡ event_words b.old readbacks.old code }
{
    b.check_readbacks(readbacks)?;
    for index in 0..4 {
        event_channel(b, readbacks, index, code);
    }
    b.note_event();
    Ok(())
}

#[tactic(auto, unfolding(crate::specs::Calls::user_board, crate::specs::Calls::user_answer, crate::specs::Calls::changed_at), using(crate::proofs::Users::one_more))]
pub fn change_user(b: &mut Board, user: u32) -> Result<(), Refusal>
    ensures next { b.new ≡ user_board b.old user }
    ensures answer { outcome_of result ≡ user_answer user }
{
    channel::check_range(1, 8, user)?;
    if user != u32::from(b.user) {
        // By index: of an element behind `iter_mut` the proof knows nothing afterwards.
        for index in 0..4 {
            b.channels[index].change_user();
        }
        b.user = user as u8;
    }
    Ok(())
}

// The interrupt level; the board stays as it is.
pub fn interrupt_level(b: &Board) -> u8
    ensures { result ≡ level_of b.now }
{
    b.interrupt_level()
}
