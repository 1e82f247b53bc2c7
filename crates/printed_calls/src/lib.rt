// The calls by role, each with its answer printed: the words of tests/CALLS.md, Records, after the record's number.
#![tactic(auto)]

use access_control::GuardedBoard;
use call_script::lent::Buffers;
use call_script::pool;
use channel_replies::Receipt;
use output::Printer;
use permissions::Role;
use refusal::Refusal;

pub fn ok(printer: &mut Printer) {
    printer.text(b" ok");
}

pub fn refused(printer: &mut Printer, reason: Refusal) {
    printer.numbered(b" refused ", u64::from(u8::from(reason)));
}

// What a call tells; where it is refused that is printed, and there is nothing to tell.
pub fn told<T>(printer: &mut Printer, answer: Result<T, Refusal>) -> Option<T> {
    match answer {
        Ok(told) => Some(told),
        Err(reason) => {
            refused(printer, reason);
            None
        }
    }
}

// The answer of a call that has nothing to tell but that it was done.
pub fn done(printer: &mut Printer, outcome: Result<(), Refusal>) {
    if told(printer, outcome).is_some() {
        ok(printer);
    }
}

pub fn write_register(
    printer: &mut Printer,
    g: &mut GuardedBoard,
    role: Role,
    readbacks: &mut [u32],
    address: u32,
    value: u16,
) {
    done(
        printer,
        guarded_registers::write_register(g, role, readbacks, address, value),
    );
}

pub fn read_register(printer: &mut Printer, g: &mut GuardedBoard, role: Role, address: u32) {
    let answer = guarded_registers::read_register(g, role, address);
    if let Some(value) = told(printer, answer) {
        printer.text(b" value ");
        printer.hex_value(value);
    }
}

pub fn arm(printer: &mut Printer, g: &mut GuardedBoard, role: Role, number: u32) {
    done(printer, guarded_channels::arm(g, role, number));
}

pub fn disarm(printer: &mut Printer, g: &mut GuardedBoard, role: Role, number: u32) {
    done(printer, guarded_channels::disarm(g, role, number));
}

pub fn reply(
    printer: &mut Printer,
    g: &mut GuardedBoard,
    role: Role,
    readbacks: &mut [u32],
    number: u32,
    frame: u64,
) {
    let answer = guarded_channels::reply(g, role, readbacks, number, frame);
    match told(printer, answer) {
        Some(Receipt::Kept) => printer.text(b" kept"),
        Some(Receipt::Lost) => printer.text(b" lost"),
        Some(Receipt::Unsolicited) => printer.text(b" unasked"),
        None => {}
    }
}

pub fn part(printer: &mut Printer, part: &[u32]) {
    printer.text(b" part");
    for word in part {
        printer.text(b" ");
        printer.hex_word(*word);
    }
}

pub fn length(printer: &mut Printer, length: Result<usize, Refusal>) {
    if let Some(count) = told(printer, length) {
        printer.numbered(b" length ", count as u64);
    }
}

// The retired counts of channels 1 to 4, each asked by the examiner with the channel's own two buffers, after these words.
pub fn retired_counts(printer: &mut Printer, g: &GuardedBoard, readbacks: &[u32], words: &[u8]) {
    for channel in 1..=4u8 {
        let (first, second) = Buffers::Own.spans(g.board.m, channel);
        let one = pool::part(readbacks, first);
        let two = pool::part(readbacks, second);
        let number = u32::from(channel);
        if let Ok(count) = guarded_readings::retired_length(g, Role::Examiner, number, one, two) {
            printer.numbered(words, count as u64);
        }
    }
}

pub fn event(
    printer: &mut Printer,
    g: &mut GuardedBoard,
    role: Role,
    readbacks: &mut [u32],
    code: u8,
) {
    done(printer, guarded_board::event(g, role, readbacks, code));
}

pub fn change_user(printer: &mut Printer, g: &mut GuardedBoard, role: Role, user: u32) {
    done(printer, guarded_board::change_user(g, role, user));
}

pub fn interrupt_level(printer: &mut Printer, g: &GuardedBoard, role: Role) {
    let answer = guarded_board::interrupt_level(g, role);
    if let Some(level) = told(printer, answer) {
        printer.numbered(b" level ", u64::from(level));
    }
}
