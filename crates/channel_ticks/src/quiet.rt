// Ticks that only count down: how many of the next ones are so, and so many of them taken at once.
ghost use Rattle.std.specs.Prelude.{◌≡◌};
ghost use Rattle.channel_ticks.specs.Quiet.{quiet_ticks, channel_quiet_ticks, after_quiet};

use channel_core::Channel;
use sequencer::{Sequencer, Stage};

// How many of the next ticks only count down, at the least.
#[tactic(auto, unfolding(crate::specs::Quiet::quiet_ticks))]
pub fn quiet_ticks(sequencer: &Sequencer) -> u64
    ensures { result ≡ quiet_ticks sequencer.now }
{
    let sends = sequencer.left.saturating_sub(1);
    match sequencer.stage {
        Stage::Idle => 0xffff_ffff,
        Stage::Starting | Stage::Running | Stage::Paused(_) | Stage::Ended => sends,
        Stage::Resuming if sequencer.resume <= 10 => sequencer.resume.saturating_sub(1),
        Stage::Resuming => sends.min(sequencer.resume.saturating_sub(10)),
    }
}

// The same of a channel: a tick with a command frame is not quiet.
#[tactic(auto, unfolding(crate::specs::Quiet::channel_quiet_ticks))]
pub fn channel_quiet_ticks(c: &Channel) -> u64
    ensures { result ≡ channel_quiet_ticks c.now }
{
    if c.commands.is_due() {
        0
    } else {
        quiet_ticks(&c.sequencer)
    }
}

// So many quiet ticks.
#[tactic(auto, unfolding(crate::specs::Quiet::after_quiet))]
pub fn count_down(sequencer: &mut Sequencer, ticks: u64)
    ensures { sequencer.new ≡ after_quiet sequencer.old ticks }
{
    let silent = sequencer.resume <= 10;
    match sequencer.stage {
        Stage::Idle => {}
        Stage::Starting | Stage::Running | Stage::Paused(_) | Stage::Ended => {
            sequencer.left = sequencer.left.saturating_sub(ticks);
        }
        Stage::Resuming => {
            sequencer.resume = sequencer.resume.saturating_sub(ticks);
            if !silent {
                sequencer.left = sequencer.left.saturating_sub(ticks);
            }
        }
    }
}
