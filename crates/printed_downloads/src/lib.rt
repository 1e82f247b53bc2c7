// A channel's download by role, opened and in portions, with the answers printed: the words of tests/CALLS.md, kinds 16 to 18, after the record's number.
#![tactic(auto)]

use access_control::GuardedBoard;
use guarded_readings::download;
use output::Printer;
use permissions::Role;

pub fn open(printer: &mut Printer, g: &mut GuardedBoard, role: Role, number: u32) {
    printed_calls::length(printer, download::open(g, role, number));
}

pub fn portion(
    printer: &mut Printer,
    g: &GuardedBoard,
    role: Role,
    number: u32,
    index: u32,
    size: u32,
    one: &[u32],
    two: &[u32],
) {
    printed_calls::part(
        printer,
        download::portion(g, role, number, index, size, one, two),
    );
}

pub fn portion_length(
    printer: &mut Printer,
    g: &GuardedBoard,
    role: Role,
    number: u32,
    index: u32,
    size: u32,
    one: &[u32],
    two: &[u32],
) {
    printed_calls::length(
        printer,
        download::portion_length(g, role, number, index, size, one, two),
    );
}
