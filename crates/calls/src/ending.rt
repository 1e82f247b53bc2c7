// The last six lines (tests/CALLS.md, The end): the pools' digest, the interrupt level, the retired counts, and every register, all asked by the examiner.
use access_control::GuardedBoard;
use output::Printer;
use permissions::Role;
use script_record::Bench;

// Every register of a channel, or of Main as channel 0, and the line's end. An address that is not read has no value.
fn registers(printer: &mut Printer, g: &mut GuardedBoard, channel: u8) {
    for offset in 0..0x800u32 {
        let address = u32::from(channel) * 0x800 + offset;
        if let Ok(value) = guarded_registers::read_register(g, Role::Examiner, address) {
            printer.text(b" ");
            printer.hex_value(value);
        }
    }
    printer.end_line();
}

pub fn lines(bench: &mut Bench) {
    let (printer, g) = (&mut bench.printer, &mut bench.board);
    printer.text(b"end ");
    printer.hex_digest(bench.pools.digest());
    printed_calls::interrupt_level(printer, g, Role::Examiner);
    printer.text(b" retired");
    printed_calls::retired_counts(printer, g, &bench.pools.readbacks, b" ");
    printer.end_line();
    for channel in 1..5u8 {
        printer.numbered(b"channel ", u64::from(channel));
        registers(printer, g, channel);
    }
    printer.text(b"main");
    registers(printer, g, 0);
}
