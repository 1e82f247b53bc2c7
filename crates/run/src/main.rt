// Reads a run file from standard input and writes its log line. One byte past 65,536 is enough to know a longer file.
#![tactic(auto)]

use std::io::{self, Print};

fn main(rt: HostRuntime) -> io::Result<()> {
    let out = rt.stdout();
    let mut file = [0u8; 65537];
    let length = input::read_full(&mut rt.stdin(), &mut file)?;
    let mut line = [0u8; 96];
    let line_length = run_file::run_line(&file[..length], &mut line);
    Print::write_all(&out, &line[..line_length])?;
    Print::write_all(&out, b"\n")
}
