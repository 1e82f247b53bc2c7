// What a tick of a channel did: it sent a frame, or why it sent none.
#![tactic(auto)]

ghost use Rattle.std.specs.Prelude.{◌≡◌};
ghost use Rattle.tick_outcome.specs.Outcomes.{silence_at, silence, outcome};

use sequencer::{Sequencer, Stage};

#[derive(Clone, Copy, Debug, PartialEq, Eq)]
pub enum TickOutcome {
    // There was no tick yet: the first of the eight answers that document 02, card 10, lists, and so no Option.
    NoTick,
    Sent,
    Disarmed,
    Idle,
    StartDelay,
    StartGap,
    ResumeGap,
    BetweenEdges,
}

// Of a tick that sends nothing, by the sequencer just before it.
#[tactic(auto, unfolding(crate::specs::Outcomes::silence))]
pub fn silence(before: &Sequencer) -> TickOutcome
    ensures { result ≡ silence before.now }
{
    if !before.armed {
        return TickOutcome::Disarmed;
    }
    match before.stage {
        Stage::Idle => TickOutcome::Idle,
        Stage::Starting if before.left <= 10 => TickOutcome::StartGap,
        Stage::Starting => TickOutcome::StartDelay,
        Stage::Resuming if before.resume <= 10 => TickOutcome::ResumeGap,
        Stage::Running | Stage::Paused(_) | Stage::Resuming | Stage::Ended =>
            TickOutcome::BetweenEdges,
    }
}

// Of any tick, by whether it sends a frame and the sequencer just before it.
#[tactic(auto, unfolding(crate::specs::Outcomes::outcome))]
pub fn outcome(sends: bool, before: &Sequencer) -> TickOutcome
    ensures { result ≡ outcome sends before.now }
{
    if sends {
        TickOutcome::Sent
    } else {
        silence(before)
    }
}
