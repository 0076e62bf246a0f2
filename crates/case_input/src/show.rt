// What is written of an answer: after a space a number, or bytes as the input has them.
use std::{fmt, io};

// Bytes as the input has them: two hexadecimal digits each, - where there are none.
#[derive(Drop)]
struct Hex<'a>(&'a [u8]);

impl<'a> fmt::Display for Hex<'a> {
    fn fmt<W: fmt::Write>(&self, f: &mut fmt::Formatter<W>) -> fmt::Result {
        if self.0.is_empty() {
            return write!(f, "-");
        }
        for byte in self.0 {
            write!(f, "{byte:02X}")?;
        }
        Ok(())
    }
}

// Bytes as they are, such as a line of the input, which need not be text. What each line has is written so too: `print!` clears and copies 1,024
// bytes, which is most of the work where lines are short.
pub fn text(out: &impl Print, s: &[u8]) -> io::Result<()> {
    out.write_all(s)
}

pub fn decimal(out: &impl Print, n: u64) -> io::Result<()> {
    out.print(n)
}

pub fn number(out: &impl Print, n: u64) -> io::Result<()> {
    print!(out; " {n}")
}

pub fn bytes(out: &impl Print, s: &[u8]) -> io::Result<()> {
    print!(out; " {}", Hex(s))
}

// A 64-bit number as its eight bytes, the most significant first.
pub fn word(out: &impl Print, n: u64) -> io::Result<()> {
    print!(out; " {n:016X}")
}
