// The slave table of an accepted file's form at a width, and its slaves: directories and files.
ghost use Rattle.std.specs.Prelude.{false};
ghost use Rattle.file.specs.Rules.Decode.{decode};
ghost use Rattle.file.specs.Inner.Places.{slave_of};
ghost use Rattle.file.specs.Inner.Accepted.{AcceptedFile, WidthOf};
ghost use Rattle.convert.specs.Inner.ListedSleep.{is_kept};
ghost use Rattle.convert.specs.Inner.Slaves.{SlaveRead, SlaveFits, SlaveDone, BodyFits, BodyDone, MovedDone};

use crate::directory::put_directory;
use crate::put::put_run;
use crate::sizes::file_count;
use crate::table::{SleepBytes, listed_sleep, put_table_entry};
use file::layout::{
    AWAKE, ENTRY_OFFSETS, HEADER_BYTES, HEADER_OFFSETS, OFFSET_WIDTH, WIDE_OFFSET_WIDTH,
};
use file::readers::{slave_count, width_of};

// Where a slave ends, in the file and in the buffer.
#[derive(Clone, Copy)]
struct SlaveEnds {
    file: usize,
    out: usize,
}

// A slave of a file, put from a place on: its directory and, behind it, its files, which in both editions lie in one run.
fn put_slave(
    out: &mut [u8],
    width: usize,
    at: usize,
    file: &[u8],
    own: usize,
    slave: usize,
    start: usize,
) -> SlaveEnds
    requires { SlaveRead file.now own slave start × SlaveFits width out.old at (slave_of (decode file.now) slave) }
    ensures { SlaveDone width file.now slave at out.old out.new result.file result.out }
{
    let count = file_count(file, own, slave);
    let from = start + ENTRY_OFFSETS * own * count;
    let files = at + ENTRY_OFFSETS * width * count;
    let end = put_directory(out, width, at, file, own, slave, start);
    let behind = from + (end - files);
    put_run(out, files, file, from, behind);
    SlaveEnds {
        file: behind,
        out: end,
    }
}

// The table of a file's slaves from one place on, and the slaves from another on, one behind the other.
pub fn put_slaves(
    out: &mut [u8],
    width: usize,
    at: usize,
    place: usize,
    file: &[u8],
    sleep: SleepBytes,
)
    requires { AcceptedFile file.now × BodyFits width out.old at place (decode file.now).slaves }
    ensures { BodyDone (is_kept sleep) width at place (decode file.now).slaves out.old out.new }
{
    let own = width_of(file);
    let count = slave_count(file);
    let mut entry = at;
    let mut start = HEADER_BYTES + HEADER_OFFSETS * own + ENTRY_OFFSETS * own * count;
    let mut to = place;
    for slave in 0..count {
        let files = file_count(file, own, slave) as u8;
        let asleep = listed_sleep(file, own, slave, sleep);
        let ends = put_slave(out, width, to, file, own, slave, start);
        put_table_entry(out, width, entry, to, files, asleep);
        entry = entry + ENTRY_OFFSETS * width;
        start = ends.file;
        to = ends.out;
    }
}

// The table of a file's slaves at its own width, all awake, and their directories, over those of slaves that were copied to a place.
fn put_moved_at<const WIDTH: usize>(out: &mut [u8], at: usize, place: usize, file: &[u8])
    requires { AcceptedFile file.now × WidthOf file.now WIDTH × BodyFits WIDTH out.old at place (decode file.now).slaves }
    ensures { MovedDone WIDTH at place (decode file.now).slaves out.old out.new }
{
    let count = slave_count(file);
    let mut entry = at;
    let mut start = HEADER_BYTES + HEADER_OFFSETS * WIDTH + ENTRY_OFFSETS * WIDTH * count;
    let mut to = place;
    for slave in 0..count {
        let files = file_count(file, WIDTH, slave) as u8;
        let end = put_directory(out, WIDTH, to, file, WIDTH, slave, start);
        put_table_entry(out, WIDTH, entry, to, files, AWAKE);
        entry = entry + ENTRY_OFFSETS * WIDTH;
        start = start + (end - to);
        to = end;
    }
}

// The table and the slaves at the file's own width, all awake: the slaves are copied at once, then their directories are put over the copied
// ones. That loop is written once for each edition, with its numbers; the copy stands before the choice, where it is compiled once.
pub fn put_moved(out: &mut [u8], width: usize, at: usize, place: usize, file: &[u8])
    requires { AcceptedFile file.now × WidthOf file.now width × BodyFits width out.old at place (decode file.now).slaves }
    ensures { BodyDone false width at place (decode file.now).slaves out.old out.new }
{
    let body = HEADER_BYTES + HEADER_OFFSETS * width + ENTRY_OFFSETS * width * slave_count(file);
    put_run(out, place, file, body, file.len());
    if width == OFFSET_WIDTH {
        put_moved_at::<OFFSET_WIDTH>(out, at, place, file);
        return;
    }
    put_moved_at::<WIDE_OFFSET_WIDTH>(out, at, place, file);
}
