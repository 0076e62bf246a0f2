// A slave's directory at a width.
ghost use Rattle.std.specs.Prelude.{◌+◌, ◌≤◌, length};
ghost use Rattle.file.specs.Rules.Layout.{entry_size_lem};
ghost use Rattle.file.specs.Rules.Decode.{decode};
ghost use Rattle.file.specs.Inner.Places.{slave_of};
ghost use Rattle.convert.specs.Inner.Putting.{Put, OffsetFits, directory_entry_of};
ghost use Rattle.convert.specs.Inner.Slaves.{SlaveRead, SlaveFits, DirectoryDone};

use crate::put::{put_fill, put_offset};
use crate::sizes::file_count;
use file::layout::{ENTRY_OFFSETS, FILL_PLACE, RECORD_COUNT_PLACE, RECORD_SIZE};

// A directory entry: "file number", "record count", the zeros that fill its first half up, "offset". The offset is put first: behind the
// other bytes its four stores are not compiled to one.
fn put_directory_entry(out: &mut [u8], width: usize, at: usize, place: usize, number: u8, last: u8)
    requires { OffsetFits width place × (at + entry_size_lem width ≤ length out.old) }
    ensures { Put out.old at (directory_entry_of width place number last) out.new }
{
    put_offset(out, width, at + width, place);
    out[at] = number;
    out[at + RECORD_COUNT_PLACE] = last;
    put_fill(out, width, at + FILL_PLACE);
}

// The directory of a slave of a file, put from a place on; its files lie behind it, up to the place that is returned. `own` is the width of
// the file's offsets, and the slave starts at `start` in the file.
pub fn put_directory(
    out: &mut [u8],
    width: usize,
    at: usize,
    file: &[u8],
    own: usize,
    slave: usize,
    start: usize,
) -> usize
    requires { SlaveRead file.now own slave start × SlaveFits width out.old at (slave_of (decode file.now) slave) }
    ensures { DirectoryDone width at (slave_of (decode file.now) slave) out.old out.new result }
{
    let count = file_count(file, own, slave);
    let from = ENTRY_OFFSETS * own;
    let size = ENTRY_OFFSETS * width;
    let mut entry = start;
    let mut to = at;
    let mut place = at + size * count;
    for _done in 0..count {
        let last = file[entry + RECORD_COUNT_PLACE];
        put_directory_entry(out, width, to, place, file[entry], last);
        place = place + RECORD_SIZE * (last as usize + 1);
        entry = entry + from;
        to = to + size;
    }
    place
}
