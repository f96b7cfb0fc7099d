// dyemap: reads one log from standard input and prints its report on standard output. What is printed
// for the bytes read is report's contract. That these are the bytes of the input, and that what is
// printed arrives, no proof covers: where reading or writing fails, standard error says so.
#![tactic(auto)]

ghost use Rattle.std.specs.Prelude.{◌≤◌, IfOk, length};

use report::{MOST_BYTES, ROOM, report};
use std::io::{self, Read, Stdin};

// Reads until the buffer is full or the input ends, and answers how many bytes were read.
fn read_input(input: &mut Stdin, buffer: &mut [u8]) -> io::Result<usize>
    ensures { IfOk result (λ bytes. bytes ≤ length buffer.new) }
{
    let mut bytes = 0;
    // A loop: each read begins where the last one ended.
    while bytes < buffer.len() {
        let more = input.read(&mut buffer[bytes..])?;
        if more == 0 {
            break;
        }
        bytes += more;
    }
    Ok(bytes)
}

// Prints the report of a log.
fn print_report(rt: &impl Print, log: &[u8]) -> io::Result<()> {
    let mut out = [0u8; ROOM];
    let bytes = report(log, &mut out);
    rt.write_all(&out[..bytes])
}

fn main(rt: HostRuntime) {
    // One byte more than the longest log, so that a longer one is told from it.
    let mut log = [0u8; MOST_BYTES + 1];
    let Ok(bytes) = read_input(&mut rt.stdin(), &mut log) else {
        let _ = eprintln!(rt; "dyemap: standard input cannot be read");
        return;
    };
    if print_report(&rt, &log[..bytes]).is_err() {
        let _ = eprintln!(rt; "dyemap: the report cannot be written whole");
    }
}
