// Reads a case of up to 4,096 bytes from standard input and prints its best day, or the number of a refusal, on
// standard output. The text is made by text::print; this program only reads and writes.
#![tactic(auto)]

use cases::INPUT;
use input::read_full;
use std::io;
use text::LONGEST;

fn main(rt: HostRuntime) -> io::Result<()> {
    // one byte more than a case may have, so that a longer input shows
    let mut input = [0u8; INPUT + 1];
    let n = read_full(&mut rt.reader(), &mut input)?;
    let mut text = [0u8; LONGEST];
    if let Ok(length) = text::print(&input[..n], &mut text) {
        rt.write_all(&text[..length])?;
    }
    Ok(())
}
