// The records of a call script (tests/CALLS.md, Records): each one's call, with the words it lends, and the answer printed.
#![tactic(auto)]

use access_control::GuardedBoard;
use board_state::Board;
use call_script::kind::Kind;
use call_script::lent::Buffers;
use call_script::pool::{self, Pools};
use call_script::script::{Header, Record};
use call_script::{lent, roles};
use output::Printer;
use permissions::BoardRights;

// What the records of a script work on.
#[derive(Drop)]
pub struct Bench {
    pub printer: Printer,
    pub board: GuardedBoard,
    pub pools: Pools,
}

impl Bench {
    // The pools filled and the board of the header opened. The answer is printed as record 0.
    pub fn begin(printer: Printer, header: Header) -> Bench {
        let mut bench = Bench {
            printer,
            // Nothing depends on this one: the opening below leaves another in its place, refused or not.
            board: GuardedBoard {
                board: Board::opened(0, 0),
                rights: BoardRights::none(),
            },
            pools: Pools::filled(header.seed, header.mask),
        };
        bench.printer.decimal(0);
        bench.open(
            header.n,
            header.m,
            roles::board_rights(0xff, 0x0f),
            header.n as usize * 64,
            header.m as usize * 8,
        );
        bench.printer.end_line();
        bench
    }

    // The record's line.
    pub fn line(&mut self, number: u16, record: Record) {
        self.printer.decimal(u64::from(number));
        self.call(record);
        self.printer.end_line();
    }

    fn call(&mut self, record: Record) {
        match record.kind {
            Kind::Open => self.open_again(record),
            Kind::WriteRegister | Kind::WriteSetpoint | Kind::Reply | Kind::Ticks | Kind::Event =>
                self.lent_call(record),
            Kind::Retired | Kind::RetiredLength | Kind::Portion | Kind::PortionLength => {
                self.buffer_call(record)
            }
            Kind::SetWord => self.set_word(record),
            Kind::Ramp => self.ramp(record),
            _ => self.plain_call(record),
        }
    }

    // Opens a board over the first words of both pools, or as many of them as there are.
    fn open(&mut self, n: u32, m: u32, rights: BoardRights, setpoints: usize, readbacks: usize) {
        let answer = guarded_board::reopen(
            &mut self.board,
            n,
            m,
            rights,
            pool::front(&self.pools.setpoints, setpoints),
            pool::front(&self.pools.readbacks, readbacks),
        );
        printed_calls::done(&mut self.printer, answer);
    }

    fn open_again(&mut self, record: Record) {
        self.open(
            record.x,
            record.y,
            roles::board_rights(record.channel, record.buffer),
            (record.z % 65536) as usize,
            (record.z / 65536) as usize,
        );
    }

    // A call that is lent words of one pool.
    fn lent_call(&mut self, record: Record) {
        let count = lent::length_of(record, self.board.board.n, self.board.board.m);
        let words = self.pools.lent(lent::is_of_setpoints(record), count);
        let (printer, g) = (&mut self.printer, &mut self.board);
        let number = u32::from(record.channel);
        match record.kind {
            Kind::WriteRegister => {
                let value = (record.y % 65536) as u16;
                printed_calls::write_register(printer, g, record.role, words, record.x, value)
            }
            Kind::WriteSetpoint => printed_calls::done(
                printer,
                guarded_channels::write_setpoint(
                    g,
                    record.role,
                    words,
                    number,
                    record.x,
                    u32::from(record.buffer),
                    record.y,
                    record.z,
                ),
            ),
            Kind::Reply => {
                let frame = u64::from(record.z) * 0x1_0000_0000 + u64::from(record.y);
                printed_calls::reply(printer, g, record.role, words, number, frame)
            }
            Kind::Ticks => {
                printed_ticks::ticks(printer, g, record.role, words, record.x % 65536)
            }
            _ => {
                let code = (record.x % 256) as u8;
                printed_calls::event(printer, g, record.role, words, code)
            }
        }
    }

    // Retired readbacks, portions and their lengths, which are lent two readback buffers.
    fn buffer_call(&mut self, record: Record) {
        let (first, second) = Buffers::from(record.lent).spans(self.board.board.m, record.channel);
        let one = pool::part(&self.pools.readbacks, first);
        let two = pool::part(&self.pools.readbacks, second);
        let (printer, g) = (&mut self.printer, &self.board);
        let number = u32::from(record.channel);
        match record.kind {
            Kind::Retired => printed_calls::part(
                printer,
                guarded_readings::retired(g, record.role, number, one, two),
            ),
            Kind::RetiredLength => printed_calls::length(
                printer,
                guarded_readings::retired_length(g, record.role, number, one, two),
            ),
            Kind::Portion => printed_downloads::portion(
                printer,
                g,
                record.role,
                number,
                record.x,
                record.y,
                one,
                two,
            ),
            _ => printed_downloads::portion_length(
                printer,
                g,
                record.role,
                number,
                record.x,
                record.y,
                one,
                two,
            ),
        }
    }

    // A call that is lent nothing, or none.
    fn plain_call(&mut self, record: Record) {
        let (printer, g) = (&mut self.printer, &mut self.board);
        let role = record.role;
        let number = u32::from(record.channel);
        match record.kind {
            Kind::ReadRegister => printed_calls::read_register(printer, g, role, record.x),
            Kind::Arm => printed_calls::arm(printer, g, role, number),
            Kind::Disarm => printed_calls::disarm(printer, g, role, number),
            Kind::ChangeUser => printed_calls::change_user(printer, g, role, record.x),
            Kind::InterruptLevel => printed_calls::interrupt_level(printer, g, role),
            Kind::LastReadings => printed_readings::last_readings(printer, g, role, number),
            Kind::OpenDownload => printed_downloads::open(printer, g, role, number),
            Kind::LastTick => printed_readings::last_tick(printer, g, role, number),
            _ => self.none(),
        }
    }

    // The answer of a record that makes no call and sets no word.
    fn none(&mut self) {
        self.printer.text(b" none");
    }

    // A word of a pool.
    fn set_word(&mut self, record: Record) {
        if self.pools.set(record.channel, record.x, record.y) {
            printed_calls::ok(&mut self.printer);
        } else {
            self.none();
        }
    }

    // A ramp, which names no board.
    fn ramp(&mut self, record: Record) {
        let answer = script_ramp::call(&mut self.pools, record);
        if let Some(count) = printed_calls::told(&mut self.printer, answer) {
            self.printer.numbered(b" wrote ", u64::from(count));
        }
    }
}
