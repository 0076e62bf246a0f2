// Bytes put into a buffer from a place on: numbers, zeros, and a run of a file's bytes. The place stands beside the buffer: it is the number
// that the offsets in the file state, and a slice or a writer that begins there would be handed on with that number all the same.
ghost use Rattle.std.specs.Prelude.{◌+◌, ◌-◌, ◌≤◌, ◌<◌, length, replicate};
ghost use Rattle.file.specs.Rules.Bytes.{bytes_of, part};
ghost use Rattle.file.specs.Rules.Layout.{OffsetWidth};
ghost use Rattle.file.specs.Inner.Layout.{short_width};
ghost use Rattle.convert.specs.Inner.Putting.{Put, OffsetFits};

use file::copying::copy;
use file::layout::OFFSET_WIDTH;

// The values of a byte, and of two.
const BYTE_VALUES: usize = 256;

const SHORT_VALUES: usize = 65536;

// A number in two bytes, most significant byte first.
fn put_u16(out: &mut [u8], at: usize, number: usize)
    requires { (at + short_width ≤ length out.old) × (number < 65536) }
    ensures { Put out.old at (bytes_of short_width number) out.new }
{
    out[at] = (number / BYTE_VALUES) as u8;
    out[at + 1] = (number % BYTE_VALUES) as u8;
}

// An offset of that width.
pub fn put_offset(out: &mut [u8], width: usize, at: usize, offset: usize)
    requires { OffsetFits width offset × (at + width ≤ length out.old) }
    ensures { Put out.old at (bytes_of width offset) out.new }
{
    if width == OFFSET_WIDTH {
        put_u16(out, at, offset);
    } else {
        put_u16(out, at, offset / SHORT_VALUES);
        put_u16(out, at + OFFSET_WIDTH, offset % SHORT_VALUES);
    }
}

// The zeros that fill an entry up: none in edition 1, two in edition 2. Two stores, where a loop of that length is compiled to a call.
pub fn put_fill(out: &mut [u8], width: usize, at: usize)
    requires { OffsetWidth width × (at + (width - 2) ≤ length out.old) }
    ensures { Put out.old at (replicate (width - 2) 0) out.new }
{
    if width == OFFSET_WIDTH {
        return;
    }
    put_u16(out, at, 0);
}

// Zeros.
pub fn put_zeros(out: &mut [u8], at: usize, count: usize)
    requires { at + count ≤ length out.old }
    ensures { Put out.old at (replicate count 0) out.new }
{
    for done in 0..count {
        out[at + done] = 0;
    }
}

// The bytes of a file from one place up to another.
pub fn put_run(out: &mut [u8], at: usize, file: &[u8], start: usize, end: usize)
    requires { (start ≤ end) × (end ≤ length file.now) × (at + (end - start) ≤ length out.old) }
    ensures { Put out.old at (part file.now start (end - start)) out.new }
{
    let behind = at + (end - start);
    copy(&file[start..end], &mut out[at..behind]);
}
