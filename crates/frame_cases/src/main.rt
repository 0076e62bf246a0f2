// The documents' cases of fireworks and frames, the edges of each ground, and vectors of an independent model, run against the
// code. A line of the input is one of
//   read FRAME
//   write BUFFER epoch name file operation record
//   data BUFFER byte byte byte byte
//   firework BYTE
// After it stand the number of the answer, 0 where nothing is refused, and the parts of the address or the buffer afterwards;
// of a firework its round: a number, MSD, MSA, or - for none.
#![tactic(auto)]

use case_input::fields::{byte_at, bytes_at, is};
use case_input::lines::each_line;
use case_input::show;
use case_input::show::text;
use file::types::{FileNumber, LogicalName, Operation, RecordNumber, Refusal};
use frame::firework::{Firework, firework_of};
use frame::reader::read_address;
use frame::writer::{write_address, write_data};
use std::io;

// The most bytes that a frame or a buffer has here.
const BYTES: usize = 64;

fn number(out: &impl Print, n: u8) -> io::Result<()> {
    show::number(out, n as u64)
}

fn read(out: &impl Print, frame: &[u8]) -> io::Result<()> {
    match read_address(frame) {
        Err(why) => number(out, why.number()),
        Ok(read) => {
            number(out, 0)?;
            number(out, read.epoch)?;
            number(out, read.name.0)?;
            number(out, read.file.0)?;
            number(out, read.operation.0)?;
            number(out, read.record.0)
        }
    }
}

fn written(out: &impl Print, answer: Result<(), Refusal>) -> io::Result<()> {
    match answer {
        Err(why) => number(out, why.number()),
        Ok(()) => number(out, 0),
    }
}

fn write(out: &impl Print, case: &[u8], buffer: &mut [u8]) -> io::Result<()> {
    let answer = write_address(
        buffer,
        byte_at(case, 2),
        LogicalName::new(byte_at(case, 3)),
        FileNumber(byte_at(case, 4)),
        Operation(byte_at(case, 5)),
        RecordNumber(byte_at(case, 6)),
    );
    written(out, answer)?;
    show::bytes(out, buffer)
}

fn data(out: &impl Print, case: &[u8], buffer: &mut [u8]) -> io::Result<()> {
    let answer = write_data(
        buffer,
        byte_at(case, 2),
        byte_at(case, 3),
        byte_at(case, 4),
        byte_at(case, 5),
    );
    written(out, answer)?;
    show::bytes(out, buffer)
}

fn firework(out: &impl Print, byte: &[u8]) -> io::Result<()> {
    let Some(byte) = byte.first() else {
        return Ok(());
    };
    match firework_of(*byte) {
        Some(Firework::Multipartner(r)) => show::number(out, r as u64),
        Some(Firework::Data) => print!(out; " MSD"),
        Some(Firework::Address) => print!(out; " MSA"),
        None => print!(out; " -"),
    }
}

// The first field of each kind is bytes.
fn answer(out: &impl Print, case: &[u8], bytes: &mut [u8]) -> io::Result<()> {
    if is(case, b"read") {
        read(out, bytes)
    } else if is(case, b"write") {
        write(out, case, bytes)
    } else if is(case, b"data") {
        data(out, case, bytes)
    } else if is(case, b"firework") {
        firework(out, bytes)
    } else {
        Ok(())
    }
}

fn run(out: &impl Print, case: &[u8]) -> io::Result<()> {
    let mut bytes = [0u8; BYTES];
    let size = bytes_at(case, 1, &mut bytes);
    text(out, case)?;
    if !is(case, b"#") {
        text(out, b" =")?;
        answer(out, case, &mut bytes[..size])?;
    }
    text(out, b"\n")
}

fn main(rt: HostRuntime) -> io::Result<()> {
    each_line(rt.alloc(), rt.stdin(), |case| run(&rt, case))
}
