// What an accepted file says of the sizes of its slaves, and the length of its form at another width.
ghost use Rattle.std.specs.Prelude.{◌≡◌, ◌<◌, length};
ghost use Rattle.file.specs.Rules.Layout.{OffsetWidth};
ghost use Rattle.file.specs.Rules.Encode.{file_length};
ghost use Rattle.file.specs.Rules.Decode.{decode};
ghost use Rattle.file.specs.Inner.Places.{slave_of};
ghost use Rattle.file.specs.Inner.Accepted.{AcceptedFile, WidthOf, slave_count};
ghost use Rattle.convert.specs.Inner.Slaves.{files_in};

use file::layout::{ENTRY_OFFSETS, HEADER_BYTES, HEADER_OFFSETS};
use file::numbers::byte_at;
use file::readers::{slave_count, width_of};

// How many files a slave of a file has, whose offsets have that width. File, width and slave stay three parameters: the loops over the slaves
// have the first two once and the third anew in each turn.
pub fn file_count(file: &[u8], own: usize, slave: usize) -> usize
    requires { AcceptedFile file.now × WidthOf file.now own × (slave < slave_count file.now) }
    ensures { result ≡ length (slave_of (decode file.now) slave).files }
{
    let table = HEADER_BYTES + HEADER_OFFSETS * own;
    byte_at(file, table + ENTRY_OFFSETS * own * slave + own)
}

// How many files all its slaves have. The loop goes from file count to file count in the table: the compiler unrolls one that counts the
// slaves, and not this one, whose step is known at run time only. A `while`: `step_by` compares twice for each slave, eight instructions in
// place of five.
fn files_in(file: &[u8], own: usize) -> usize
    requires { AcceptedFile file.now × WidthOf file.now own }
    ensures { result ≡ files_in (decode file.now).slaves }
{
    let size = ENTRY_OFFSETS * own;
    let mut place = HEADER_BYTES + HEADER_OFFSETS * own + own;
    let end = place + size * slave_count(file);
    let mut files = 0;
    while place < end {
        files = files + byte_at(file, place);
        place = place + size;
    }
    files
}

// The length of the file's form at that width: its own, or with header and entries of the other size.
pub fn length_in(file: &[u8], width: usize) -> usize
    requires { AcceptedFile file.now × OffsetWidth width }
    ensures { result ≡ file_length width (decode file.now).slaves }
{
    let own = width_of(file);
    if width == own {
        return file.len();
    }
    let entries = slave_count(file) + files_in(file, own);
    let front = HEADER_BYTES + HEADER_OFFSETS * own + ENTRY_OFFSETS * own * entries;
    let contents = file.len() - front;
    contents + (HEADER_BYTES + HEADER_OFFSETS * width + ENTRY_OFFSETS * width * entries)
}
