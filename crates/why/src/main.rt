// Reads a run file from standard input, runs its records, and says of each channel what its last tick did. One byte past 65,536 is enough to know a longer file.
#![tactic(auto)]

use output::Printer;
use std::io;
use tick_outcome::TickOutcome;

// Each name of document 02, card 10, with a sentence for whoever wrote the file.
fn explain(printer: &mut Printer, outcome: TickOutcome) {
    match outcome {
        TickOutcome::NoTick => printer.text(
            b"no tick yet. No tick has come since the board was opened or the channel was reset.",
        ),
        TickOutcome::Sent => printer.text(
            b"sent. The last tick sent a frame of this channel: a setpoint or a command frame.",
        ),
        TickOutcome::Disarmed => printer.text(
            b"disarmed. The channel was disarmed when the last tick came: arm it, then start it.",
        ),
        TickOutcome::Idle => printer.text(
            b"idle. The channel was armed, but no function was under way when the last tick came: it waits for a Start.",
        ),
        TickOutcome::StartDelay => printer.text(
            b"start delay. A Start had come and its delay was still running: the first setpoint leaves 10 ticks after the delay.",
        ),
        TickOutcome::StartGap => printer.text(
            b"start gap. The start delay was over, and the last tick was one of the 9 silent ticks before the first setpoint.",
        ),
        TickOutcome::ResumeGap => printer.text(
            b"resume gap. The resume delay was over, and the last tick was one of the 9 silent ticks before the next setpoint.",
        ),
        TickOutcome::BetweenEdges => printer.text(
            b"between clock edges. A function was under way, and neither its next setpoint nor a repeat was due on the last tick.",
        ),
    }
}

// The lines of channels 1 to 4, after the last record.
fn why(printer: &mut Printer, part: &[u8]) {
    let state = run_file::run_records(part);
    for number in 1..5u32 {
        printer.numbered(b"channel ", u64::from(number));
        printer.text(b": ");
        if let Ok(outcome) = board_readings::last_tick(&state.board, number) {
            explain(printer, outcome);
        }
        printer.end_line();
    }
}

fn main(rt: HostRuntime) -> io::Result<()> {
    let mut printer = Printer::new(rt.stdout());
    let mut bytes = [0u8; 65537];
    let length = input::read_full(&mut rt.stdin(), &mut bytes)?;
    let file = &bytes[..length];
    match records::records_length(file) {
        Ok(_) => why(&mut printer, records::records(file)),
        Err(_) => printer.text(b"file 8\n"),
    }
    printer.flush();
    Ok(())
}
