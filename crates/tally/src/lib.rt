// What a run counts: steps, refusals and the frames of channels 1 to 4, drawn from the answers of the board's calls.
#![tactic(auto)]

ghost use Rattle.std.specs.Prelude.{◌≡◌, is_err, slice_index};
ghost use Rattle.channel_core.specs.Answers.{Answer, is_refusal};
ghost use Rattle.board.specs.Answers.{one};
ghost use Rattle.tally.specs.Tallies.{nothing_yet, tally, tally_ticks, stepped};

use refusal::Refusal;

// Each count stays at its type's largest number. Six by name, as the line has them and `Drawn` (run_laws) says them.
#[derive(Clone, Copy, Debug, PartialEq, Eq)]
pub struct Counts {
    pub steps: u32,
    pub refused: u32,
    pub first: u32,
    pub second: u32,
    pub third: u32,
    pub fourth: u32,
}

impl Counts {
    pub fn nothing() -> Self
        ensures { result ≡ nothing_yet }
    {
        Self {
            steps: 0,
            refused: 0,
            first: 0,
            second: 0,
            third: 0,
            fourth: 0,
        }
    }

    // A record taken.
    #[tactic(auto, unfolding(crate::specs::Tallies::stepped))]
    pub fn step(&mut self)
        ensures { self.new ≡ stepped self.old }
    {
        self.steps = self.steps.saturating_add(1);
    }

    // The answer of a call counted, whatever the call tells where it is not refused.
    #[tactic(auto, unfolding(crate::specs::Tallies::tally))]
    pub fn count<T>(&mut self, answer: &Result<T, Refusal>)
        ensures { (a : Answer) → is_refusal a ≡ is_err answer.now → self.new ≡ tally self.old (one a) }
    {
        if answer.is_err() {
            self.refused = self.refused.saturating_add(1);
        }
    }

    // The answers of ticks in a row: so many were refused, and so many frames of channels 1 to 4.
    #[tactic(auto, unfolding(crate::specs::Tallies::tally_ticks))]
    pub fn count_ticks(&mut self, refused: u32, frames: [u32; 4])
        ensures { self.new ≡ tally_ticks self.old refused (slice_index frames 0) (slice_index frames 1) (slice_index frames 2) (slice_index frames 3) }
    {
        let [first, second, third, fourth] = frames;
        self.refused = self.refused.saturating_add(refused);
        self.first = self.first.saturating_add(first);
        self.second = self.second.saturating_add(second);
        self.third = self.third.saturating_add(third);
        self.fourth = self.fourth.saturating_add(fourth);
    }
}
