// The program: reads a sheet from standard input, and writes what people read of it to standard output. All its work is `view_text::view`; no
// more than one byte past the longest sheet is read, since nothing further on changes what is written.
#![tactic(auto)]

use std::io;
use text::Page;

fn main(rt: HostRuntime) -> io::Result<()> {
    let mut input = [0u8; sheet::LONGEST + 1];
    let n = lent_input::read_full(&mut rt.stdin(), &mut input)?;
    let mut room = [0u8; view_text::LONGEST];
    let mut page = Page::new(&mut room);
    view_text::view(&mut page, &input[..n]);
    page.write_to(&mut rt.stdout())
}
