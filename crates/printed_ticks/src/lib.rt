// Ticks in a row by role, each frame that it is shown printed with its tick and channel: the words of tests/CALLS.md, Records, kind 9.
#![tactic(auto)]

ghost use Rattle.std.specs.Prelude.{◌≡◌, ◌<◌, ◌≤◌};

use access_control::GuardedBoard;
use board_state::Board;
use output::Printer;
use permissions::Role;
use refusal::Refusal;

// The frames of a channel in some ticks, each at the place of its tick; 0 is none, since every frame ends in two stop bits, and
// `frames_at` (channel_ticks) keeps numbers.
type Captured = [u64; 128];

fn frame(printer: &mut Printer, tick: u64, channel: u64, frame: u64) {
    if frame != 0 {
        printer.numbered(b" ", tick);
        printer.numbered(b":", channel);
        printer.text(b":");
        printer.hex_frame(frame);
    }
}

// The frames of so many ticks after the first `before`, by tick, then by channel.
fn by_tick(printer: &mut Printer, before: u32, count: u32, captured: &[Captured; 4])
    requires { count ≤ 128 }
{
    for i in 0..count {
        let tick = u64::from(before) + u64::from(i) + 1;
        for place in 0..4usize {
            frame(printer, tick, place as u64 + 1, captured[place][i as usize]);
        }
    }
}

// The frames of the board's next so many ticks, which come after the first `before`, of the channels that are shown.
fn frames(
    printer: &mut Printer,
    b: &Board,
    shown: [bool; 4],
    setpoints: &[u32],
    before: u32,
    count: u32,
)
    requires { count ≤ 128 }
{
    let mut captured = [[0u64; 128]; 4];
    for place in 0..4usize {
        if shown[place] {
            board_ticks::frames(b, setpoints, place as u32 + 1, count, &mut captured[place]);
        }
    }
    by_tick(printer, before, count, &captured);
}

// How many of so many ticks only count down.
fn quiet_of(b: &Board, rest: u32) -> u32
    ensures { result ≤ rest }
{
    board_ticks::quiet_ticks(b).min(u64::from(rest)) as u32
}

// How many ticks are taken at once: the quiet ones, and where some channel acts as many as are captured at once.
fn at_once(quiet: u32, rest: u32) -> u32
    requires quiet { quiet ≤ rest }
    requires rest { 0 < rest }
    ensures rest { result ≤ rest }
    ensures some { 0 < result }
    ensures captured { quiet ≡ 0 → result ≤ 128 }
{
    if 0 < quiet { quiet } else { rest.min(128) }
}

// As many ticks, each with the frames that are shown. Those on which no channel acts are jumped over.
fn each_tick(
    printer: &mut Printer,
    b: &mut Board,
    shown: [bool; 4],
    setpoints: &[u32],
    count: u32,
) {
    let mut before: u32 = 0;
    // No `for`: a turn takes as many ticks as are quiet.
    while before < count {
        let quiet = quiet_of(b, count - before);
        let batch = at_once(quiet, count - before);
        if quiet == 0 {
            frames(printer, b, shown, setpoints, before, batch);
        }
        board_ticks::ticks(b, setpoints, batch);
        before += batch;
    }
}

// Whether a tick is refused: its length, then the role.
fn check(g: &GuardedBoard, role: Role, setpoints: &[u32]) -> Result<(), Refusal> {
    g.board.check_setpoints(setpoints)?;
    access_control::check_permission(role.may_tick())
}

// As many ticks, with the frames of the channels that the role is shown. All of them are refused or none is.
pub fn ticks(
    printer: &mut Printer,
    g: &mut GuardedBoard,
    role: Role,
    setpoints: &[u32],
    count: u32,
) {
    if count != 0 {
        if let Err(reason) = check(g, role, setpoints) {
            printed_calls::refused(printer, reason);
            return;
        }
    }
    printer.text(b" ticks");
    let shown = [1, 2, 3, 4].map(|number| g.rights.may_read(role, number));
    each_tick(printer, &mut g.board, shown, setpoints, count);
}
