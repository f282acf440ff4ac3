// Obeys a script, a line a call of the library, and prints each line with what it gave. The script says at its top how it is written.
#![tactic(auto)]

ghost use Rattle.std.specs.Prelude.{◌≤◌, length, IfOk};

mod bench;

use bench::{Bench, Stop};
use script::words;
use std::io;
use std::io::Read;

// Line after line, to the end or to one that cannot be read.
fn run(rt: &impl Print, script: &[u8]) -> io::Result<()> {
    let mut bench = Bench::new();
    for line in script.split_inclusive(|mark| *mark == b'\n') {
        let line = words::unmarked(line, b'\n');
        rt.write_all(line)?;
        match bench.obey(rt, line) {
            Ok(()) => rt.println("")?,
            Err(Stop::NotRead) => return rt.println(" not read"),
            Err(Stop::NotPrinted(error)) => return Err(error),
        }
    }
    Ok(())
}

// As much of the input as the buffer has room for: how many bytes. A loop, since `read_exact` does not tell how many there are of an input that is shorter,
// and `read_to_end` takes a heap.
fn read_full(input: &mut impl Read, buffer: &mut [u8]) -> io::Result<usize>
    ensures { IfOk result (λ n. n ≤ length buffer.new) }
{
    let mut n = 0;
    while n < buffer.len() {
        let got = input.read(&mut buffer[n..])?;
        if got == 0 {
            return Ok(n);
        }
        n += got;
    }
    Ok(n)
}

// A script that fills the buffer may be longer than it.
fn main(rt: HostRuntime) -> io::Result<()> {
    let mut script = [0u8; 65536];
    let n = read_full(&mut rt.stdin(), &mut script)?;
    if n == script.len() {
        return rt.println("The script is longer than 65535 bytes.");
    }
    run(&rt, &script[..n])
}
