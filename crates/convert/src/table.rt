// The entries of a slave table.
ghost use Rattle.std.specs.Prelude.{◌≡◌, ◌+◌, ◌≤◌, ◌<◌, length};
ghost use Rattle.file.specs.Rules.Layout.{entry_size_lem};
ghost use Rattle.file.specs.Rules.Decode.{decode};
ghost use Rattle.file.specs.Inner.Places.{slave_of};
ghost use Rattle.file.specs.Inner.Accepted.{AcceptedFile, WidthOf, slave_count};
ghost use Rattle.convert.specs.Inner.Putting.{Put, OffsetFits, table_entry_of};
ghost use Rattle.convert.specs.Inner.ListedSleep.{is_kept};
ghost use Rattle.convert.specs.Inner.Slaves.{listed_as};

use crate::put::{put_fill, put_offset};
use file::layout::{
    AWAKE, ENTRY_OFFSETS, HEADER_BYTES, HEADER_OFFSETS, SLEEP_FIELD, TABLE_FILL_FIELD,
};

// Whether a table keeps the sleep bytes of the file that it lists, or lists all slaves awake.
#[derive(Clone, Copy)]
pub enum SleepBytes {
    Kept,
    AllAwake,
}

// A table entry: "directory offset", "file count", "sleep byte", and the zeros that fill it up.
pub fn put_table_entry(out: &mut [u8], width: usize, at: usize, place: usize, count: u8, asleep: u8)
    requires { OffsetFits width place × (at + entry_size_lem width ≤ length out.old) }
    ensures { Put out.old at (table_entry_of width place count asleep) out.new }
{
    put_offset(out, width, at, place);
    let behind = at + width;
    out[behind] = count;
    out[behind + SLEEP_FIELD] = asleep;
    put_fill(out, width, behind + TABLE_FILL_FIELD);
}

// The sleep byte that a slave of a file is listed with, whose offsets have that width.
pub fn listed_sleep(file: &[u8], own: usize, slave: usize, sleep: SleepBytes) -> u8
    requires { AcceptedFile file.now × WidthOf file.now own × (slave < slave_count file.now) }
    ensures { result ≡ (listed_as (is_kept sleep) (slave_of (decode file.now) slave)).asleep }
{
    match sleep {
        SleepBytes::AllAwake => AWAKE,
        SleepBytes::Kept => {
            let table = HEADER_BYTES + HEADER_OFFSETS * own;
            file[table + ENTRY_OFFSETS * own * slave + own + SLEEP_FIELD]
        }
    }
}
