// Reads a run file from standard input, makes its records' calls on one board as the examiner and prints each answer, then what the memory holds. One byte past 65,536 is enough to know a longer file.
#![tactic(auto)]

use access_control::GuardedBoard;
use output::Printer;
use permissions::{BoardRights, Role};
use records::Request;
use refusal::Refusal;
use std::io;

// A zeroed board of depths 16 and 64, what it is lent, and where its answers are printed.
#[derive(Drop)]
struct Bench {
    printer: Printer,
    board: GuardedBoard,
    setpoints: [u32; 1024],
    readbacks: [u32; 512],
}

impl Bench {
    fn open(printer: Printer) -> Bench {
        let setpoints = [0u32; 1024];
        let readbacks = [0u32; 512];
        let opened = guarded_board::open(16, 64, BoardRights::none(), &setpoints, &readbacks);
        Bench {
            printer,
            board: opened.unwrap(),
            setpoints,
            readbacks,
        }
    }

    // A record's call, which is the examiner's.
    fn call(&mut self, request: Request) {
        let (printer, g) = (&mut self.printer, &mut self.board);
        let (setpoints, readbacks) = (&mut self.setpoints, &mut self.readbacks);
        let role = Role::Examiner;
        match request {
            Request::Write { address, value } => {
                printed_calls::write_register(printer, g, role, readbacks, address, value)
            }
            Request::Read { address } => printed_calls::read_register(printer, g, role, address),
            Request::Setpoint {
                number,
                user,
                buffer,
                index,
                word,
            } => {
                let answer = guarded_channels::write_setpoint(
                    g, role, setpoints, number, user, buffer, index, word,
                );
                printed_calls::done(printer, answer)
            }
            Request::Event { code } => printed_calls::event(printer, g, role, readbacks, code),
            Request::Ticks { count } => printed_ticks::ticks(printer, g, role, setpoints, count),
            Request::Reply { number, frame } => {
                printed_calls::reply(printer, g, role, readbacks, number, frame)
            }
            Request::User { user } => printed_calls::change_user(printer, g, role, user),
            Request::Arm { number } => printed_calls::arm(printer, g, role, number),
            Request::Disarm { number } => printed_calls::disarm(printer, g, role, number),
        }
    }

    // A record's line.
    fn line(&mut self, number: usize, request: Result<Request, Refusal>) {
        self.printer.decimal(number as u64);
        match request {
            Ok(request) => self.call(request),
            Err(reason) => printed_calls::refused(&mut self.printer, reason),
        }
        self.printer.end_line();
    }

    // The line after the records: every word of the readback memory that is not 0, and the retired counts.
    fn end(&mut self) {
        self.printer.text(b"end");
        for (index, word) in self.readbacks.iter().enumerate() {
            if *word != 0 {
                self.printer.numbered(b" ", index as u64);
                self.printer.text(b"=");
                self.printer.hex_word(*word);
            }
        }
        printed_calls::retired_counts(&mut self.printer, &self.board, &self.readbacks, b" r");
        self.printer.end_line();
    }
}

// The records of the part, and the last line.
fn trace(printer: Printer, part: &[u8]) -> Printer {
    let mut bench = Bench::open(printer);
    for (index, record) in part.chunks_exact(8).enumerate() {
        bench.line(index + 1, records::decode(record));
    }
    bench.end();
    bench.printer
}

fn main(rt: HostRuntime) -> io::Result<()> {
    let mut printer = Printer::new(rt.stdout());
    let mut bytes = [0u8; 65537];
    let length = input::read_full(&mut rt.stdin(), &mut bytes)?;
    let file = &bytes[..length];
    match records::records_length(file) {
        Ok(_) => printer = trace(printer, records::records(file)),
        Err(_) => printer.text(b"file 8\n"),
    }
    printer.flush();
    Ok(())
}
