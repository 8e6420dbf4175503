// The program: reads a sheet from standard input, and writes it filled, or the line of its refusal, to standard output. All its work is
// `fill`; no more than one byte past the longest sheet is read, since nothing further on changes what is written.
#![tactic(auto)]

use std::io;

fn main(rt: HostRuntime) -> io::Result<()> {
    let mut input = [0u8; sheet::LONGEST + 1];
    let mut out = [0u8; sheet::LONGEST];
    lent_input::run(
        &mut rt.stdin(),
        &mut rt.stdout(),
        &mut input,
        &mut out,
        fill::fill,
    )
}
