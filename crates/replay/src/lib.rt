// What one record of a run file does: the board's own calls, and their answers counted.
#![tactic(auto)]

ghost use Rattle.std.specs.Prelude.{◌≡◌};
ghost use Rattle.records.specs.Requests.{asked, request_of};
ghost use Rattle.tally.specs.Tallies.{tallies};
ghost use Rattle.board.specs.Worlds.{world};
ghost use Rattle.replay.specs.Worlds.{after, answers};

use board_state::Board;
use records::Request;
use refusal::Refusal;
use tally::Counts;

// The board of a run, and what is counted so far.
#[derive(Clone, Copy, Debug, PartialEq, Eq)]
pub struct RunState {
    pub board: Board,
    pub counts: Counts,
}

impl RunState {
    // What a record asks, done and counted; a refused record makes no call and is counted as refused.
    #[tactic(auto, unfolding(crate::specs::Worlds::after, crate::specs::Worlds::answers, tally::specs::Tallies::tallies))]
    pub fn apply(
        &mut self,
        setpoints: &mut [u32],
        readbacks: &mut [u32],
        request: Result<Request, Refusal>,
    )
        ensures world { world self.new.board setpoints.new readbacks.new ≡ after (world self.old.board setpoints.old readbacks.old) (request_of request) }
        ensures counts { self.new.counts ≡ tallies self.old.counts (answers (world self.old.board setpoints.old readbacks.old) (request_of request)) }
    {
        match request {
            Ok(request) => self.call(setpoints, readbacks, request),
            Err(_) => self.counts.count(&request),
        }
    }

    #[tactic(auto, unfolding(crate::specs::Worlds::after))]
    fn call(&mut self, setpoints: &mut [u32], readbacks: &mut [u32], request: Request)
        ensures world { world self.new.board setpoints.new readbacks.new ≡ after (world self.old.board setpoints.old readbacks.old) (asked request) }
        ensures counts { self.new.counts ≡ tallies self.old.counts (answers (world self.old.board setpoints.old readbacks.old) (asked request)) }
    {
        let b = &mut self.board;
        let counts = &mut self.counts;
        match request {
            Request::Write { address, value } => counts.count(&board_registers::write_register(
                b, readbacks, address, value,
            )),
            Request::Read { address } => counts.count(&board_registers::read_register(b, address)),
            Request::Setpoint {
                number,
                user,
                buffer,
                index,
                word,
            } => counts.count(&board_channels::write_setpoint(
                b, setpoints, number, user, buffer, index, word,
            )),
            Request::Event { code } => counts.count(&board::event(b, readbacks, code)),
            // A record of so many ticks makes that many ticks of the board.
            Request::Ticks { count } => {
                let ticked = board_ticks::ticks(b, setpoints, count);
                counts.count_ticks(ticked.refused, ticked.frames);
            }
            Request::Reply { number, frame } => {
                counts.count(&board_channels::reply(b, readbacks, number, frame))
            }
            Request::User { user } => counts.count(&board::change_user(b, user)),
            Request::Arm { number } => counts.count(&board_channels::arm(b, number)),
            Request::Disarm { number } => counts.count(&board_channels::disarm(b, number)),
        }
    }
}
