// One tick: what is sent on it, and what is counted down.
ghost use Rattle.std.specs.Prelude.{◌≡◌};
ghost use Rattle.sequencer.specs.Playing.{sent_in_stage, sent_next, repeated, advancing, repeating, resuming, ticked};
ghost use Rattle.sequencer.specs.Transmissions.{transmission_of};

use crate::{Clock, Kind, LastSend, Sent, Sequencer, Stage, words};

impl Sequencer {
    // What any send changes, `first` the first word's: it is the last send now, both counts take it, it uses the tag, and the next follows a period later.
    fn count_send(&mut self, first: bool, clock: &Clock)
        ensures { self.new ≡ sent_in_stage self.old first clock.now.period clock.now.id }
    {
        let shortfall = self.shortfall();
        self.add_missing(shortfall);
        self.last = Some(LastSend {
            first,
            paused: matches!(self.stage, Stage::Paused(_) | Stage::Resuming),
            last: self.stage == Stage::Ended,
            id: clock.id,
            tagged: self.tag,
            replies: 0,
        });
        self.tag = false;
        if self.count < 0xff_ffff {
            self.count += 1;
        }
        self.left = u64::from(clock.period);
    }

    // The word due is sent.
    #[tactic(auto, unfolding(crate::specs::Playing::sent_next, crate::specs::Playing::sent_as))]
    fn send_next(&mut self, clock: &Clock) -> Option<Sent>
        ensures next { self.new ≡ (sent_next self.old clock.now.due clock.now.depth clock.now.period clock.now.id).sequencer }
        ensures sent { transmission_of result ≡ (sent_next self.old clock.now.due clock.now.depth clock.now.period clock.now.id).transmission }
    {
        let kind = Kind::of(clock.due, words::at_end(clock.depth, self.index));
        let first = self.stage == Stage::Starting;
        self.stage = kind.stage_after();
        self.resume = 0;
        self.index = kind.index_after(self.index);
        self.word = clock.due;
        self.count_send(first, clock);
        Some(Sent {
            word: clock.due,
            condition: kind.condition(),
        })
    }

    // The kept word is sent again.
    #[tactic(auto, unfolding(crate::specs::Playing::repeated))]
    fn repeat(&mut self, clock: &Clock) -> Option<Sent>
        ensures next { self.new ≡ (repeated self.old clock.now.period clock.now.id).sequencer }
        ensures sent { transmission_of result ≡ (repeated self.old clock.now.period clock.now.id).transmission }
    {
        self.count_send(false, clock);
        Some(Sent {
            word: self.word,
            condition: None,
        })
    }

    // A tick towards the word due.
    #[tactic(auto, unfolding(crate::specs::Playing::advancing))]
    fn advance(&mut self, clock: &Clock) -> Option<Sent>
        ensures next { self.new ≡ (advancing self.old clock.now.due clock.now.depth clock.now.period clock.now.id).sequencer }
        ensures sent { transmission_of result ≡ (advancing self.old clock.now.due clock.now.depth clock.now.period clock.now.id).transmission }
    {
        if self.left <= 1 {
            return self.send_next(clock);
        }
        self.left -= 1;
        None
    }

    // A tick towards the next repeat.
    #[tactic(auto, unfolding(crate::specs::Playing::repeating))]
    fn hold(&mut self, clock: &Clock) -> Option<Sent>
        ensures next { self.new ≡ (repeating self.old clock.now.period clock.now.id).sequencer }
        ensures sent { transmission_of result ≡ (repeating self.old clock.now.period clock.now.id).transmission }
    {
        if self.left <= 1 {
            return self.repeat(clock);
        }
        self.left -= 1;
        None
    }

    // A tick of a resume: repeats through the delay, then nine silent ticks, then the word due.
    #[tactic(auto, unfolding(crate::specs::Playing::resuming))]
    fn resume_tick(&mut self, clock: &Clock) -> Option<Sent>
        ensures next { self.new ≡ (resuming self.old clock.now.due clock.now.depth clock.now.period clock.now.id).sequencer }
        ensures sent { transmission_of result ≡ (resuming self.old clock.now.due clock.now.depth clock.now.period clock.now.id).transmission }
    {
        if self.resume <= 1 {
            return self.send_next(clock);
        }
        self.resume -= 1;
        if self.resume < 10 {
            None
        } else {
            self.hold(clock)
        }
    }

    // One tick, of which the answer is the word sent.
    #[tactic(auto, unfolding(crate::specs::Playing::ticked))]
    pub fn tick(&mut self, clock: &Clock) -> Option<Sent>
        ensures next { self.new ≡ (ticked self.old clock.now.due clock.now.depth clock.now.period clock.now.id).sequencer }
        ensures sent { transmission_of result ≡ (ticked self.old clock.now.due clock.now.depth clock.now.period clock.now.id).transmission }
    {
        match self.stage {
            Stage::Idle => None,
            Stage::Starting | Stage::Running => self.advance(clock),
            Stage::Paused(_) | Stage::Ended => self.hold(clock),
            Stage::Resuming => self.resume_tick(clock),
        }
    }
}
