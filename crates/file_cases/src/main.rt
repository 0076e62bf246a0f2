// The cluster file in both editions against the checker and the readers: the edges of each ground, their order, and vectors of an
// independent model. A line of the input is `check FILE` or `readers FILE`, each with a LENGTH where zeros follow up to it.
// After the first stands the number of the answer, 0 where the file is accepted; after the second how many slaves there are and
// what the readers say, slave by slave.
#![tactic(auto)]

mod describe;

use case_input::fields::{filled, is};
use case_input::lines::each_line;
use case_input::show::{number, text};
use describe::describe;
use file::survey::check;
use std::io;

// One byte more than the longest file of either edition.
const FILE: usize = 65537;

fn checked(out: &impl Print, file: &[u8]) -> io::Result<()> {
    match check(file) {
        Ok(()) => number(out, 0),
        Err(why) => number(out, why.number() as u64),
    }
}

fn answer(out: &impl Print, case: &[u8], file: &[u8]) -> io::Result<()> {
    text(out, b" =")?;
    if is(case, b"check") {
        checked(out, file)
    } else if is(case, b"readers") {
        describe(out, file)
    } else {
        Ok(())
    }
}

fn run(out: &impl Print, case: &[u8]) -> io::Result<()> {
    let mut file = [0u8; FILE];
    let size = filled(case, &mut file);
    text(out, case)?;
    if !is(case, b"#") {
        answer(out, case, &file[..size])?;
    }
    text(out, b"\n")
}

fn main(rt: HostRuntime) -> io::Result<()> {
    each_line(rt.alloc(), rt.stdin(), |case| run(&rt, case))
}
