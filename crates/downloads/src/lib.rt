// A download: the count that it remembers of a retired part, and its portions.
#![tactic(auto)]

ghost use Rattle.std.specs.Prelude.{◌≡◌};
ghost use Rattle.refusal.specs.Refusals.{verdict_number};
ghost use Rattle.downloads.specs.Portions.{count_of, portion_refusal, portion_of};

use refusal::Refusal;

#[derive(Clone, Copy, Debug, PartialEq, Eq)]
pub struct Download {
    // How many words it has.
    pub count: u32,
}

// At most `size` words of a part, from `index` on.
pub fn portion<'a>(part: &'a [u32], index: u32, size: u32) -> &'a [u32]
    ensures { result.now ≡ portion_of part.now index size }
{
    let rest = part.get(index as usize..).unwrap_or_default();
    rest.get(..size as usize).unwrap_or(rest)
}

// The count that a download remembers; 0 with none open.
pub fn count(download: Option<Download>) -> u32
    ensures { result ≡ count_of download }
{
    download.map_or(0, |open| open.count)
}

// Whether a portion is refused: with none open, then where its end is past the count.
pub fn check(download: Option<Download>, index: u32, size: u32) -> Result<(), Refusal>
    ensures { verdict_number result ≡ portion_refusal download index size }
{
    let open = download.ok_or(Refusal::NoDownload)?;
    // The sum of two numbers of 32 bits may need 33.
    if u64::from(open.count) < u64::from(index) + u64::from(size) {
        return Err(Refusal::OutOfRange);
    }
    Ok(())
}
