// Opening with rights, and the shared calls by role: tick, event, user change and the interrupt level. What is lent, whether the role may, then the board's own call.
// A call's contract is what `guard_refusal` comes to: every goal here opens it, and knows that a refusal's number is not 0.
#![tactic(auto, unfolding(isolation::specs::Calls::answer, isolation::specs::Calls::after, isolation::specs::Calls::words_after, access_control::specs::Guarding::guard_refusal, access_control::specs::Guarding::guarded_answer, access_control::specs::Guarding::guarded_after, access_control::specs::Guarding::guarded_words), using(refusal::proofs::Laws::refuses))]

ghost use Rattle.std.specs.Prelude.{◌≡◌, Ok, length};
ghost use Rattle.channel_core.specs.Answers.{line_of, outcome_of};
ghost use Rattle.permissions.specs.Rights.{rights_at};
ghost use Rattle.board.specs.Answers.{one, frames_of};
ghost use Rattle.board.specs.Calls.{open_board, open_answer};
ghost use Rattle.isolation.specs.Calls as call;
ghost use Rattle.isolation.specs.Calls.{none, words};
ghost use Rattle.access_control.specs.Guarding.{shown_frame, shown, guarded, answer_to, board_after, memory_after};
ghost use Rattle.guarded_board.specs.Answers.{guarded_board_of, guarded_opening_of, level_answer_of};

use access_control::GuardedBoard;
use permissions::{BoardRights, Role};
use refusal::Refusal;

// Opens a board on the memory lent, with these rights.
pub fn open(
    n: u32,
    m: u32,
    rights: BoardRights,
    setpoints: &[u32],
    readbacks: &[u32],
) -> Result<GuardedBoard, Refusal>
    ensures board { guarded_board_of result rights ≡ guarded (open_board n m (length setpoints.now) (length readbacks.now)) rights }
    ensures answer { guarded_opening_of result ≡ open_answer n m (length setpoints.now) (length readbacks.now) }
{
    let board = board::open(n, m, setpoints, readbacks)?;
    Ok(GuardedBoard { board, rights })
}

// Opens the board anew on the memory lent, with these rights. Where that is refused the closed board is in its place, with them too.
pub fn reopen(
    g: &mut GuardedBoard,
    n: u32,
    m: u32,
    rights: BoardRights,
    setpoints: &[u32],
    readbacks: &[u32],
) -> Result<(), Refusal>
    ensures board { g.new ≡ guarded (open_board n m (length setpoints.now) (length readbacks.now)) rights }
    ensures answer { outcome_of result ≡ open_answer n m (length setpoints.now) (length readbacks.now) }
{
    g.rights = rights;
    board::reopen(&mut g.board, n, m, setpoints, readbacks)
}

// A channel's frame as the role is shown it.
fn shown_frame(rights: &BoardRights, role: Role, number: u32, frame: Option<u64>) -> Option<u64>
    ensures { line_of result ≡ shown_frame (rights_at rights.now number) role (line_of frame) }
{
    if rights.may_read(role, number) {
        frame
    } else {
        None
    }
}

fn shown_frames(rights: &BoardRights, role: Role, frames: [Option<u64>; 4]) -> [Option<u64>; 4]
    ensures { frames_of (Ok result) ≡ shown rights.now role (frames_of (Ok frames)) }
{
    let [first, second, third, fourth] = frames;
    [
        shown_frame(rights, role, 1, first),
        shown_frame(rights, role, 2, second),
        shown_frame(rights, role, 3, third),
        shown_frame(rights, role, 4, fourth),
    ]
}

// A frame that is not shown is sent all the same.
pub fn tick(
    g: &mut GuardedBoard,
    role: Role,
    setpoints: &[u32],
) -> Result<[Option<u64>; 4], Refusal>
    ensures board { g.new ≡ board_after g.old role call.tick (words setpoints.now) }
    ensures answer { frames_of result ≡ answer_to g.old role call.tick (words setpoints.now) }
{
    g.board.check_setpoints(setpoints)?;
    access_control::check_permission(role.may_tick())?;
    let frames = board::tick(&mut g.board, setpoints)?;
    Ok(shown_frames(&g.rights, role, frames))
}

pub fn event(
    g: &mut GuardedBoard,
    role: Role,
    readbacks: &mut [u32],
    code: u8,
) -> Result<(), Refusal>
    ensures board { g.new ≡ board_after g.old role (call.event code) (words readbacks.old) }
    ensures answer { one (outcome_of result) ≡ answer_to g.old role (call.event code) (words readbacks.old) }
    ensures words { readbacks.new ≡ memory_after g.old role (call.event code) readbacks.old }
{
    g.board.check_readbacks(readbacks)?;
    access_control::check_permission(role.may_tick())?;
    board::event(&mut g.board, readbacks, code)
}

pub fn change_user(g: &mut GuardedBoard, role: Role, user: u32) -> Result<(), Refusal>
    ensures board { g.new ≡ board_after g.old role (call.change_user user) none }
    ensures answer { one (outcome_of result) ≡ answer_to g.old role (call.change_user user) none }
{
    access_control::check_permission(role.is_examiner())?;
    board::change_user(&mut g.board, user)
}

// The board stays as it is.
pub fn interrupt_level(g: &GuardedBoard, role: Role) -> Result<u8, Refusal>
    ensures { one (level_answer_of result) ≡ answer_to g.now role call.interrupt_level none }
{
    access_control::check_permission(role.is_examiner())?;
    Ok(board::interrupt_level(&g.board))
}
