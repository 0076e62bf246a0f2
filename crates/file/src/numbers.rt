// Bytes and several-byte numbers of a file or a trace, most significant byte first.
ghost use Rattle.std.specs.Prelude.{◌+◌, ◌≤◌, ◌<◌, length};
ghost use Rattle.file.specs.Rules.Layout.{OffsetWidth};
ghost use Rattle.file.specs.Inner.Numbers.{ByteAt, NumberAt};
ghost use Rattle.file.specs.Inner.Layout.{short_width, long_width};

use crate::layout::OFFSET_WIDTH;

// The byte at a place, as an index.
pub fn byte_at(file: &[u8], at: usize) -> usize
    requires { at < length file.now }
    ensures { ByteAt file.now at result }
{
    file[at] as usize
}

// The two-byte number at a place, as an index.
pub fn u16_at(file: &[u8], at: usize) -> usize
    requires { at + short_width ≤ length file.now }
    ensures { NumberAt file.now at short_width result }
{
    let high = byte_at(file, at);
    let low = byte_at(file, at + 1);
    (high << 8) | low
}

// The offset at a place, of the width of its edition.
pub fn offset_at(file: &[u8], width: usize, at: usize) -> usize
    requires { OffsetWidth width × (at + width ≤ length file.now) }
    ensures { NumberAt file.now at width result }
{
    if width == OFFSET_WIDTH {
        return u16_at(file, at);
    }
    let high = u16_at(file, at);
    let low = u16_at(file, at + 2);
    (high << 16) | low
}

// The eight-byte number at a place. Eight shifted bytes joined in one row are compiled to one load; two halves of four are not. Each shift stands
// here, and in `u16_at`, and is not left to `from_be_bytes`: the edits u64_second_byte_by_47_bits and u16_high_byte_by_7_bits change one of them.
pub fn u64_at(file: &[u8], at: usize) -> u64
    requires { at + long_width ≤ length file.now }
    ensures { NumberAt file.now at long_width result }
{
    let b0 = byte_at(file, at);
    let b1 = byte_at(file, at + 1);
    let b2 = byte_at(file, at + 2);
    let b3 = byte_at(file, at + 3);
    let b4 = byte_at(file, at + 4);
    let b5 = byte_at(file, at + 5);
    let b6 = byte_at(file, at + 6);
    let b7 = byte_at(file, at + 7);
    let high = (b0 << 56) | (b1 << 48) | (b2 << 40) | (b3 << 32);
    (high | (b4 << 24) | (b5 << 16) | (b6 << 8) | b7) as u64
}
