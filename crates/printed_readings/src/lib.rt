// The readings of a channel, and what its last tick did, by role, printed: the words of tests/CALLS.md, kinds 15 and 19, after the record's number.
#![tactic(auto)]

use access_control::GuardedBoard;
use channel_readings::{Reading, Readings};
use output::Printer;
use permissions::Role;
use tick_outcome::TickOutcome;

// The whole part of a number; 0 of one that a u64 does not hold.
fn whole_part(x: f64) -> u64 {
    if x > -1.0 && x < 18446744073709551616.0 {
        std::num::truncating_f64_to_u64(x)
    } else {
        0
    }
}

// A reading: its voltage × 32,768, which is a whole number.
fn reading(printer: &mut Printer, reading: Reading) {
    match reading {
        Reading::Volts(x) if x < 0.0 => printer.numbered(b" -", whole_part(-x * 32768.0)),
        Reading::Volts(x) => printer.numbered(b" ", whole_part(x * 32768.0)),
        Reading::Lost => printer.text(b" lost"),
        Reading::Damaged => printer.text(b" damaged"),
    }
}

fn readings(printer: &mut Printer, readings: Readings) {
    printer.text(b" volts");
    reading(printer, readings.third);
    reading(printer, readings.fourth);
    reading(printer, readings.fifth);
    reading(printer, readings.sixth);
}

pub fn last_readings(printer: &mut Printer, g: &GuardedBoard, role: Role, number: u32) {
    let answer = guarded_readings::last_readings(g, role, number);
    if let Some(told) = printed_calls::told(printer, answer) {
        readings(printer, told);
    }
}

fn reason(printer: &mut Printer, outcome: TickOutcome) {
    printer.text(b" reason ");
    match outcome {
        TickOutcome::NoTick => printer.text(b"no-tick"),
        TickOutcome::Sent => printer.text(b"sent"),
        TickOutcome::Disarmed => printer.text(b"disarmed"),
        TickOutcome::Idle => printer.text(b"idle"),
        TickOutcome::StartDelay => printer.text(b"start-delay"),
        TickOutcome::StartGap => printer.text(b"start-gap"),
        TickOutcome::ResumeGap => printer.text(b"resume-gap"),
        TickOutcome::BetweenEdges => printer.text(b"between-edges"),
    }
}

pub fn last_tick(printer: &mut Printer, g: &GuardedBoard, role: Role, number: u32) {
    let answer = guarded_readings::last_tick(g, role, number);
    if let Some(told) = printed_calls::told(printer, answer) {
        reason(printer, told);
    }
}
