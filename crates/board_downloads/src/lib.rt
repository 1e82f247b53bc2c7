// A channel's download, by the channel's number: opened, and its portions.
#![tactic(auto)]

ghost use Rattle.std.specs.Prelude.{◌≡◌};
ghost use Rattle.channel_core.specs.Answers.{part_of};
ghost use Rattle.channel.specs.Answers.{length_of};
ghost use Rattle.board_downloads.specs.Calls.{opened_board, opening_answer, portion_answer, portion_length};

use board_state::Board;
use refusal::Refusal;

// Opens the named channel's download, lent nothing: the count that it remembers.
#[tactic(auto, unfolding(crate::specs::Calls::opened_board, crate::specs::Calls::opening_answer))]
pub fn open(b: &mut Board, number: u32) -> Result<usize, Refusal>
    ensures next { b.new ≡ opened_board b.old number }
    ensures answer { length_of result ≡ opening_answer b.old number }
{
    let at = board_state::check_channel(number)?;
    Ok(channel::download::open(&mut b.channels[at]) as usize)
}

// `size` words of the named channel's download, from `index` on, of the inactive one of the two buffers lent; empty where refused.
#[tactic(auto, unfolding(crate::specs::Calls::portion_words), using(crate::proofs::Portions::portion_part, std::proofs::lemmas::List::get_or_default))]
pub fn portion<'a>(
    b: &Board,
    number: u32,
    index: u32,
    size: u32,
    one: &'a [u32],
    two: &'a [u32],
) -> &'a [u32]
    ensures { result.now ≡ part_of (portion_answer b.now number index size one.now two.now) }
{
    match board_state::check_channel(number) {
        Ok(at) => channel::download::portion(&b.channels[at], b.m, index, size, one, two),
        Err(_) => &[],
    }
}

// The length of what `portion` gives, or the refusal.
#[tactic(auto, unfolding(crate::specs::Calls::portion_length, crate::specs::Calls::portion_words, channel::specs::Downloads::portion_length))]
pub fn portion_length(
    b: &Board,
    number: u32,
    index: u32,
    size: u32,
    one: &[u32],
    two: &[u32],
) -> Result<usize, Refusal>
    ensures { length_of result ≡ portion_length b.now number index size one.now two.now }
{
    let at = board_channels::check_buffers(b, number, one.len(), two.len())?;
    channel::download::portion_length(&b.channels[at], b.m, index, size, one, two)
}
