// The download of a channel: opened, and its portions, of the two readback buffers lent.
ghost use Rattle.std.specs.Prelude.{◌≡◌};
ghost use Rattle.refusal.specs.Refusals.{verdict_number};
ghost use Rattle.channel.specs.Answers.{length_of};
ghost use Rattle.channel.specs.Downloads.{download_opened, portion_refusal, portion_words, portion_length};

use crate::check_buffers;
use channel_core::Channel;
use downloads::Download;
use refusal::Refusal;

// The answer is the count that the download remembers.
#[tactic(auto, unfolding(crate::specs::Downloads::download_opened))]
pub fn open(c: &mut Channel) -> u32
    ensures next { c.new ≡ download_opened c.old }
    ensures count { result ≡ c.old.readbacks.retired }
{
    let count = c.readbacks.retired;
    c.download = Some(Download { count });
    count
}

// Whether a portion is refused: the lengths of the two buffers, then the download, then the range.
fn check(c: &Channel, m: u32, index: u32, size: u32, one: usize, two: usize) -> Result<(), Refusal>
    ensures { verdict_number result ≡ portion_refusal c.now m index size one two }
{
    check_buffers(m, one, two)?;
    downloads::check(c.download, index, size)
}

// `size` words of the download, from `index` on, of the inactive one of the two buffers lent; empty where refused.
#[tactic(auto, unfolding(crate::specs::Downloads::portion_words))]
pub fn portion<'a>(
    c: &Channel,
    m: u32,
    index: u32,
    size: u32,
    one: &'a [u32],
    two: &'a [u32],
) -> &'a [u32]
    ensures { result.now ≡ portion_words c.now m index size one.now two.now }
{
    match check(c, m, index, size, one.len(), two.len()) {
        Ok(()) => {
            let second = c.registers.readback_second_active();
            let count = downloads::count(c.download);
            let part = readback::retired_part(second, count, one, two);
            downloads::portion(part, index, size)
        }
        Err(_) => &[],
    }
}

// The length of what `portion` gives, or the refusal.
#[tactic(auto, unfolding(crate::specs::Downloads::portion_length))]
pub fn portion_length(
    c: &Channel,
    m: u32,
    index: u32,
    size: u32,
    one: &[u32],
    two: &[u32],
) -> Result<usize, Refusal>
    ensures { length_of result ≡ portion_length c.now m index size one.now two.now }
{
    check(c, m, index, size, one.len(), two.len())?;
    Ok(portion(c, m, index, size, one, two).len())
}
