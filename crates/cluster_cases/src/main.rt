// Frames on cluster files against vectors of an independent model. A line of the input is `round FILE FRAME LENGTH`, LENGTH
// that of the answer buffer, which holds EE throughout. After it stand the number of the answer, 0 where the frame is carried
// out, the mask, the file and the buffer afterwards.
#![tactic(auto)]

use case_input::fields::{bytes_at, count_at, is};
use case_input::lines::each_line;
use case_input::show;
use case_input::show::text;
use cluster::round::round;
use std::io;

// The most bytes that a file, a frame and an answer buffer have here.
const FILE: usize = 2048;

const FRAME: usize = 64;

const BUFFER: usize = 168;

fn answered(out: &impl Print, number: u8, mask: u64) -> io::Result<()> {
    print!(out; " = {number} {mask:016X}")
}

fn carry(out: &impl Print, file: &mut [u8], frame: &[u8], buffer: &mut [u8]) -> io::Result<()> {
    match round(file, frame, buffer) {
        Err(why) => answered(out, why.number(), 0)?,
        Ok(mask) => answered(out, 0, mask)?,
    }
    show::bytes(out, file)?;
    show::bytes(out, buffer)
}

fn round_case(out: &impl Print, case: &[u8]) -> io::Result<()> {
    let mut file = [0u8; FILE];
    let mut frame = [0u8; FRAME];
    let mut buffer = [0xEEu8; BUFFER];
    let size = bytes_at(case, 1, &mut file);
    let sent = bytes_at(case, 2, &mut frame);
    let length = count_at(case, 3, &buffer);
    carry(
        out,
        &mut file[..size],
        &frame[..sent],
        &mut buffer[..length],
    )
}

fn run(out: &impl Print, case: &[u8]) -> io::Result<()> {
    text(out, case)?;
    if is(case, b"round") {
        round_case(out, case)?;
    }
    text(out, b"\n")
}

fn main(rt: HostRuntime) -> io::Result<()> {
    each_line(rt.alloc(), rt.stdin(), |case| run(&rt, case))
}
