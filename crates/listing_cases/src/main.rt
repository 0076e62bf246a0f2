// Listings of cluster files. A line of the input is `list FILE`, or `list FILE LENGTH` where zeros follow up to a length; the
// listing is written after it.
#![tactic(auto)]

use case_input::fields::{counted, filled, is};
use case_input::lines::each_line;
use case_input::show::text;
use listing_text::run::list;
use std::io;

fn listing(out: &impl Print, case: &[u8]) -> io::Result<()> {
    let mut file = [0u8; 65537];
    let mut listed = [0u8; 10499];
    let size = filled(case, &mut file);
    let written = list(&mut file[..size], &mut listed);
    let count = counted(written, &listed);
    text(out, &listed[..count])
}

fn run(out: &impl Print, case: &[u8]) -> io::Result<()> {
    text(out, case)?;
    text(out, b"\n")?;
    if is(case, b"list") {
        listing(out, case)?;
    }
    Ok(())
}

fn main(rt: HostRuntime) -> io::Result<()> {
    each_line(rt.alloc(), rt.stdin(), |case| run(&rt, case))
}
