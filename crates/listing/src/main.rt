// Lists a cluster file: reads it from standard input, runs names 0x01 to 0xFE on it, and writes the names that were given.
#![tactic(auto)]

use file::layout::LONGEST;
use listing_text::run::{TEXT_SIZE, list};
use std::io;
use std::io::Read;

// One byte more than a cluster file may have, so that a longer input is refused for its size.
fn main(rt: HostRuntime) -> io::Result<()> {
    let mut file = Vec::new(rt.alloc());
    rt.stdin().take(LONGEST as u64 + 1).read_to_end(&mut file)?;
    let mut text = [0u8; TEXT_SIZE];
    let written = list(&mut file, &mut text);
    rt.write_all(&text[..written])
}
