// Reads a call script (tests/CALLS.md) from standard input, makes its calls on one board and prints each answer.
#![tactic(auto)]

mod ending;

use call_script::script;
use output::Printer;
use script_record::Bench;
use std::io;

// The records of a script, and the lines after them.
fn run(printer: Printer, script: &[u8], count: u16) -> Printer {
    let mut bench = Bench::begin(printer, script::header_of(script));
    for index in 0..count {
        let number = index + 1;
        bench.line(number, script::record_at(script, number));
    }
    ending::lines(&mut bench);
    bench.printer
}

fn main(rt: HostRuntime) -> io::Result<()> {
    let mut printer = Printer::new(rt.stdout());
    let mut bytes = [0u8; 65537];
    let length = input::read_full(&mut rt.stdin(), &mut bytes)?;
    match script::records_of(length) {
        Some(count) => printer = run(printer, &bytes[..length], count),
        None => printer.text(b"script bad\n"),
    }
    printer.flush();
    Ok(())
}
