// The lines of the input.
ghost use Rattle.std.specs.Prelude.{◌≡◌, All, IfOk, IfSome, Ok, OnOk, take};
ghost use Rattle.std.specs.Fn.{FnReturnsAt};
ghost use Rattle.case_input.specs.Inner.Lines.{lines, without_end};

use std::alloc::Global;
use std::io;
use std::io::Read;

// The longest input: what comes after it is not read.
const LONGEST: u64 = 262144;

fn read_input<R: Read + Drop>(alloc: Global, input: R) -> io::Result<Vec<u8>>
    ensures { IfOk result (λ bytes. IfSome (R.remaining input) (λ xs. bytes.items ≡ take 262144 xs)) }
{
    let mut bytes = Vec::new(alloc);
    input.take(LONGEST).read_to_end(&mut bytes)?;
    Ok(bytes)
}

// Without the line end that it ends with.
fn without_end(bytes: &[u8]) -> &[u8]
    ensures { result.now ≡ without_end bytes.now }
{
    if let Some(b'\n') = bytes.last() {
        return &bytes[..bytes.len() - 1];
    }
    bytes
}

// One line after the other, so that no memory is taken for them.
fn each<F: Fn(&[u8]) -> io::Result<()>>(bytes: &[u8], case: F) -> io::Result<()>
    requires { F.IsAlwaysCallable case }
    ensures { OnOk result (All (λ line. FnReturnsAt F.Fn case line (Ok tt)) (lines bytes.now)) }
{
    if bytes.is_empty() {
        return Ok(());
    }
    without_end(bytes).split(|b| *b == b'\n').try_for_each(case)
}

// Hands each line of the input to a function, in order, and stops at the function's first error. The whole input is read before its
// first line is handed on.
pub fn each_line<R: Read + Drop, F: Fn(&[u8]) -> io::Result<()>>(
    alloc: Global,
    input: R,
    case: F,
) -> io::Result<()>
    requires { F.IsAlwaysCallable case }
    ensures { IfSome (R.remaining input) (λ xs. OnOk result (All (λ line. FnReturnsAt F.Fn case line (Ok tt)) (lines (take 262144 xs)))) }
{
    let bytes = read_input(alloc, input)?;
    each(&bytes, case)
}

#[cfg(test)]
mod tests {
    use super::*;
    use std::cell::Cell;
    use std::test::Fail;

    // How many lines are handed on, and how long they are together.
    fn handed(alloc: Global, input: &[u8]) -> io::Result<(u64, u64)> {
        let count = Cell::new(0u64);
        let bytes = Cell::new(0u64);
        each_line(alloc, input, |line| {
            count.set(count.get().wrapping_add(1));
            bytes.set(bytes.get().wrapping_add(line.len() as u64));
            Ok(())
        })?;
        Ok((count.get(), bytes.get()))
    }

    #[test]
    fn hands_on_each_line(rt: HostRuntime) -> Result<(), Fail> {
        assert_eq!(rt; handed(rt.alloc(), b"")?, (0, 0));
        assert_eq!(rt; handed(rt.alloc(), b"\n")?, (1, 0));
        assert_eq!(rt; handed(rt.alloc(), b"ab\n\nc")?, (3, 3));
        assert_eq!(rt; handed(rt.alloc(), b"ab\n\nc\n")?, (3, 3));
        Ok(())
    }

    // The line that the longest input cuts is handed on as far as it was read.
    #[test]
    fn reads_no_more_than_the_longest_input(rt: HostRuntime) -> Result<(), Fail> {
        let input = vec![in rt.alloc(); b'x'; 262145]?;
        assert_eq!(rt; handed(rt.alloc(), &input)?, (1, 262144));
        Ok(())
    }
}
