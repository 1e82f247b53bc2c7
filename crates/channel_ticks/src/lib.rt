// Ticks in a row of one channel, nothing else happening meanwhile: those that only count down are taken at once, so that they cost its sends.
#![tactic(auto)]

pub mod quiet;

ghost use Rattle.std.specs.Prelude.{◌≡◌, ◌+◌, ◌<◌, ◌≤◌, ◌%◌, cond, set, false};
ghost use Rattle.frame.specs.Frames.{encoded};
ghost use Rattle.sequencer.specs.Playing.{ticked, with_missing};
ghost use Rattle.sequencer.specs.Runs.{as_number};
ghost use Rattle.sequencer.specs.Transmissions.{condition_number};
ghost use Rattle.command_frames.specs.Commanding.{is_due};
ghost use Rattle.tick_outcome.specs.Outcomes.{outcome};
ghost use Rattle.channel_core.specs.State.{with_outcome};
ghost use Rattle.channel_core.specs.Behaviour.{is_setpoint, send_frame};
ghost use Rattle.channel_ticks.specs.Quiet.{after_quiet};
ghost use Rattle.channel_ticks.specs.Ticks.{ticks_of, frames_in, with_frame, frames_at, condition_between, after_ticks, command_first, command_leaves, with_command_frame, sent_if};

use channel_core::{Channel, latch_by, setpoint_frame, setpoint_place, word_at};
use sequencer::{Clock, Sequencer, Stage};
use status::Condition;
use tick_outcome::TickOutcome;

// What the ticks come to so far: the sequencer, whose count of missing readbacks is only what they find, and the number of their frames. What they latch
// follows from that, and so does whether replies still go to E4-FA: the status here would slow the loop down. `outcome` is what the last tick did that was
// not skipped.
#[derive(Clone, Copy)]
struct Progress {
    sequencer: Sequencer,
    frames: u32,
    outcome: TickOutcome,
}

// The next tick's share of the command frames, before the rest of it, where one is due: it leaves, unless a setpoint does. Answers whether it left.
fn command_first(c: &mut Channel, captured: &mut [u64]) -> bool
    ensures next { c.new ≡ command_first c.old }
    ensures left { result ≡ command_leaves c.old }
    ensures captured { captured.new ≡ with_command_frame c.old captured.old }
{
    let sends = quiet::quiet_ticks(&c.sequencer) == 0;
    let leaves = c.commands.is_due() && !sends;
    if leaves && 0 < captured.len() {
        captured[0] = c.commands.frame();
    }
    if c.commands.is_due() {
        c.commands.tick(sends);
    }
    leaves
}

// A frame put at its place; past the end none is kept, and none is worked out.
fn capture(captured: &mut [u64], at: usize, id: u8, word: u32)
    ensures { captured.new ≡ set captured.old at (encoded id (word % 65536) 0) }
{
    if at < captured.len() {
        captured[at] = setpoint_frame(id, word);
    }
}

impl Progress {
    // Before the first of them.
    fn begin(c: &Channel) -> Progress
        ensures sequencer { result.sequencer ≡ with_missing c.now.sequencer 0 }
        ensures frames { result.frames ≡ 0 }
        ensures outcome { result.outcome ≡ c.now.outcome }
    {
        let mut sequencer = c.sequencer;
        sequencer.clear_missing();
        Progress {
            sequencer,
            frames: 0,
            outcome: c.outcome,
        }
    }

    // So many quiet ticks; what the last of them did is not said.
    fn skip(&mut self, count: u64)
        ensures sequencer { self.new.sequencer ≡ after_quiet self.old.sequencer count }
        ensures frames { self.new.frames ≡ self.old.frames }
    {
        quiet::count_down(&mut self.sequencer, count);
    }

    // One tick, its frame put at its place.
    #[tactic(auto, unfolding(tick_outcome::specs::Outcomes::outcome))]
    fn tick(&mut self, clock: &Clock, captured: &mut [u64], at: usize)
        requires { self.old.frames < 4294967295 }
        ensures sequencer { self.new.sequencer ≡ (ticked self.old.sequencer clock.now.due clock.now.depth clock.now.period clock.now.id).sequencer }
        ensures frames { self.new.frames ≡ self.old.frames + as_number (ticked self.old.sequencer clock.now.due clock.now.depth clock.now.period clock.now.id).transmission }
        ensures outcome { self.new.outcome ≡ outcome (is_setpoint (ticked self.old.sequencer clock.now.due clock.now.depth clock.now.period clock.now.id).transmission) self.old.sequencer }
        ensures captured { captured.new ≡ with_frame (send_frame clock.now.id (ticked self.old.sequencer clock.now.due clock.now.depth clock.now.period clock.now.id).transmission) at captured.old }
    {
        let before = self.sequencer;
        match self.sequencer.tick(clock) {
            None => self.outcome = tick_outcome::silence(&before),
            Some(sent) => {
                capture(captured, at, clock.id, sent.word);
                self.frames += 1;
                self.outcome = TickOutcome::Sent;
            }
        }
    }

    // The condition of their words, by the stage before them: a word with one is repeated from then on.
    fn condition(&self, before: Stage) -> Option<Condition>
        ensures { condition_number result ≡ condition_between before self.now.sequencer.stage }
    {
        match (before, self.sequencer.stage) {
            (Stage::Paused(_) | Stage::Ended, _) => None,
            (_, Stage::Paused(pause)) => Some(Condition::Pause(pause)),
            (_, Stage::Ended) => Some(Condition::EndOfFunction),
            _ => None,
        }
    }

    // After the last of them.
    fn finish(self, c: &mut Channel)
        ensures next { c.new ≡ with_outcome (after_ticks c.old (condition_between c.old.sequencer.stage self.sequencer.stage) self.sequencer self.frames) self.outcome }
        ensures fits { c.old.sequencer.missing ≤ 255 }
    {
        let before = c.sequencer.missing;
        let condition = self.condition(c.sequencer.stage);
        c.sequencer = self.sequencer;
        c.sequencer.add_missing_before(before);
        latch_by(&mut c.status, self.sequencer.missing, condition);
        // A setpoint that leaves ends the replies to E4-FA.
        if 0 < self.frames {
            c.commands.receiving = false;
        }
        c.outcome = self.outcome;
    }
}

// So many ticks with no command frame due, of which the answer is the number of frames.
fn setpoint_ticks(
    c: &mut Channel,
    setpoints: &[u32],
    n: u32,
    user: u8,
    count: u32,
    captured: &mut [u64],
) -> u32
    requires { is_due c.old.commands.waiting ≡ false }
    ensures channel { c.new ≡ ticks_of c.old setpoints.now n user count }
    ensures frames { result ≡ frames_in c.old setpoints.now n user count }
    ensures captured { captured.new ≡ frames_at c.old setpoints.now n user count captured.old }
{
    let id = c.registers.id;
    let at = registers::zero_based(user);
    let second = c.registers.second_active(user);
    let period = registers::period(c.registers.clock);
    let mut progress = Progress::begin(c);
    let mut done: u32 = 0;
    while done < count {
        // No `for`: a turn takes as many ticks as are quiet, and one more. The last is taken by itself, for what it did.
        let quiet = quiet::quiet_ticks(&progress.sequencer).min(u64::from(count - done - 1));
        progress.skip(quiet);
        done += quiet as u32;
        let place = setpoint_place(at, second, n, progress.sequencer.index);
        let clock = Clock {
            due: word_at(setpoints, place),
            depth: n,
            period,
            id,
        };
        progress.tick(&clock, captured, done as usize);
        done += 1;
    }
    let frames = progress.frames;
    progress.finish(c);
    frames
}

// After so many ticks: where there is one, and a command frame left on it, that tick sent.
fn say_sent(c: &mut Channel, left: bool, count: u32)
    ensures { c.new ≡ sent_if c.old (cond left 1 0) count }
{
    if left && count == 1 {
        c.outcome = TickOutcome::Sent;
    }
}

// So many ticks over the channel's own setpoints, their frames captured: that of tick k at k - 1, as far as the slice reaches. Answers how many frames.
#[tactic(auto, unfolding(crate::specs::Ticks::ticks_of, crate::specs::Ticks::frames_in, crate::specs::Ticks::frames_at))]
pub fn ticks(
    c: &mut Channel,
    setpoints: &[u32],
    n: u32,
    user: u8,
    count: u32,
    captured: &mut [u64],
) -> u32
    ensures channel { c.new ≡ ticks_of c.old setpoints.now n user count }
    ensures frames { result ≡ frames_in c.old setpoints.now n user count }
    ensures captured { captured.new ≡ frames_at c.old setpoints.now n user count captured.old }
{
    if count == 0 {
        return 0;
    }
    let left = command_first(c, captured);
    let frames = setpoint_ticks(c, setpoints, n, user, count, captured);
    say_sent(c, left, count);
    u32::from(left) + frames
}
