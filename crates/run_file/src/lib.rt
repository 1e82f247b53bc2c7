// The run of a file: its records' calls on a board of its own, into six counts, and the line that says them.
#![tactic(auto)]

ghost use Rattle.std.specs.Prelude.{◌≡◌, ◌/◌, length};
ghost use Rattle.log_line.specs.Lines.{Fills};
ghost use Rattle.tally.specs.Answers.{ran_of};
ghost use Rattle.board.specs.Worlds.{world};
ghost use Rattle.run_file.specs.Runs.{start, world_after, counts_after, run_of, run_line};

use board_state::Board;
use refusal::Refusal;
use replay::RunState;
use tally::Counts;

// All records of the part, from a board and its memory.
fn play(board: Board, part: &[u8], setpoints: &mut [u32], readbacks: &mut [u32]) -> RunState
    ensures world { world result.board setpoints.new readbacks.new ≡ world_after (world board setpoints.old readbacks.old) part.now (length part.now / 8) }
    ensures counts { result.counts ≡ counts_after (world board setpoints.old readbacks.old) part.now (length part.now / 8) }
{
    let mut state = RunState {
        board,
        counts: Counts::nothing(),
    };
    for record in part.chunks_exact(8) {
        state.apply(setpoints, readbacks, records::decode(record));
        state.counts.step();
    }
    state
}

// The records run on a zeroed board of depths 16 and 64: that board after them, and the six counts.
pub fn run_records(part: &[u8]) -> RunState
    ensures board { result.board ≡ (world_after start part.now (length part.now / 8)).board }
    ensures counts { result.counts ≡ counts_after start part.now (length part.now / 8) }
{
    let mut setpoints = [0u32; 1024];
    let mut readbacks = [0u32; 512];
    let board = board::open(16, 64, &setpoints, &readbacks).unwrap();
    play(board, part, &mut setpoints, &mut readbacks)
}

// The run of a file: refused 8, or the six counts.
#[tactic(auto, using(crate::proofs::Turns::run_counted, crate::proofs::Turns::run_refused))]
pub fn run(file: &[u8]) -> Result<Counts, Refusal>
    ensures { ran_of result ≡ run_of file.now }
{
    records::records_length(file)?;
    Ok(run_records(records::records(file)).counts)
}

// The line of a file's run, written with no line end; answers its length.
#[tactic(auto, unfolding(crate::specs::Runs::run_line))]
pub fn run_line(file: &[u8], out: &mut [u8; 96]) -> usize
    ensures { Fills result out.new (run_line file.now) }
{
    log_line::write_line(out, &run(file))
}
