// A channel's download by role: opened, and its portions.
ghost use Rattle.std.specs.Prelude.{◌≡◌};
ghost use Rattle.channel.specs.Answers.{length_of};
ghost use Rattle.channel.specs.OneChannel as which;
ghost use Rattle.board.specs.Answers as answers;
ghost use Rattle.isolation.specs.Calls.{open_download, query, none, buffers};
ghost use Rattle.access_control.specs.Guarding.{answer_to, board_after, part_in};

use access_control::GuardedBoard;
use permissions::Role;
use refusal::Refusal;

// The count that it remembers.
pub fn open(g: &mut GuardedBoard, role: Role, number: u32) -> Result<usize, Refusal>
    ensures board { g.new ≡ board_after g.old role (open_download number) none }
    ensures answer { answers.one (length_of result) ≡ answer_to g.old role (open_download number) none }
{
    super::check_reading(&g.rights, role, number)?;
    board_downloads::open(&mut g.board, number)
}

// `size` words of the named channel's download, from `index` on; empty where refused.
pub fn portion<'a>(
    g: &GuardedBoard,
    role: Role,
    number: u32,
    index: u32,
    size: u32,
    one: &'a [u32],
    two: &'a [u32],
) -> &'a [u32]
    ensures { result.now ≡ part_in (answer_to g.now role (query number (which.portion index size)) (buffers one.now two.now)) }
{
    if g.rights.may_read(role, number) {
        board_downloads::portion(&g.board, number, index, size, one, two)
    } else {
        &[]
    }
}

// The length of what `portion` gives, or the refusal.
pub fn portion_length(
    g: &GuardedBoard,
    role: Role,
    number: u32,
    index: u32,
    size: u32,
    one: &[u32],
    two: &[u32],
) -> Result<usize, Refusal>
    ensures { answers.one (length_of result) ≡ answer_to g.now role (query number (which.portion_length index size)) (buffers one.now two.now) }
{
    board_channels::check_buffers(&g.board, number, one.len(), two.len())?;
    access_control::check_permission(g.rights.may_read(role, number))?;
    board_downloads::portion_length(&g.board, number, index, size, one, two)
}
