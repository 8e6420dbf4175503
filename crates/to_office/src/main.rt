// The way back to the office: writes the text of the table of a sheet on standard input, filled or not. All its work is
// `office_sheet::take_out`; no more than one byte past the longest sheet is read, since nothing further on changes what is written.
#![tactic(auto)]

use std::io;

fn main(rt: HostRuntime) -> io::Result<()> {
    let mut input = [0u8; sheet::LONGEST + 1];
    let mut out = [0u8; office::LONGEST];
    lent_input::run(
        &mut rt.stdin(),
        &mut rt.stdout(),
        &mut input,
        &mut out,
        office_sheet::take_out,
    )
}
