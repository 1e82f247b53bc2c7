// The log line of a run, as ASCII bytes in a buffer that the caller lends.
#![tactic(auto)]

mod line;

ghost use Rattle.std.specs.Prelude.{◌≡◌};
ghost use Rattle.tally.specs.Answers.{ran_of};
ghost use Rattle.log_line.specs.Lines.{log_line, Fills};

use line::Line;
use refusal::Refusal;
use tally::Counts;

// Writes the line, with no line end, and answers its length.
pub fn write_line(out: &mut [u8; 96], ran: &Result<Counts, Refusal>) -> usize
    ensures { Fills result out.new (log_line (ran_of ran.now)) }
{
    let line = match ran {
        Ok(counts) => Line::of_counts(counts),
        Err(reason) => Line::of_refusal(*reason),
    };
    out[..line.length].copy_from_slice(&line.bytes[..line.length]);
    line.length
}
