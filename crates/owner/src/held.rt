// Which slaves have a file for which round.
ghost use Rattle.std.specs.Prelude.{◌≤◌, ◌<◌, length};
ghost use Rattle.file.specs.Rules.Decode.{decode};
ghost use Rattle.file.specs.Inner.Places.{slave_of};
ghost use Rattle.file.specs.Inner.Accepted.{AcceptedFile, WidthOf, slave_count};
ghost use Rattle.file.specs.Inner.Checked.{EntriesFit};
ghost use Rattle.owner.specs.Inner.Held.{DirectoryMarked, Holds, AllHold};

use file::layout::{ENTRY_OFFSETS, HEADER_BYTES, HEADER_OFFSETS};
use file::numbers::{byte_at, offset_at};
use file::readers::{slave_count, width_of};

// File numbers of an accepted file are below 64: the remainder by it, which is the number, keeps the shift within the word's bits.
const NUMBERS: usize = 64;

const ROUND_MARKS: u64 = 256;

// The numbers below 8 of a directory's files, a bit each. A `while`: `step_by` compares twice for each entry, seven instructions in place of five.
fn mark_rounds(file: &[u8], width: usize, directory: usize, count: usize) -> u8
    requires { EntriesFit width file.now directory count }
    ensures { DirectoryMarked width file.now directory count result }
{
    let entry_size = ENTRY_OFFSETS * width;
    let end = directory + entry_size * count;
    let mut marks = 0u64;
    let mut entry = directory;
    while entry < end {
        let number = byte_at(file, entry) % NUMBERS;
        marks = marks | (1u64 << (number as u64));
        entry = entry + entry_size;
    }
    (marks % ROUND_MARKS) as u8
}

// The rounds that a slave has a file for, a bit each.
fn rounds_held(file: &[u8], width: usize, slave: usize) -> u8
    requires { AcceptedFile file.now × WidthOf file.now width × (slave < slave_count file.now) }
    ensures { Holds (slave_of (decode file.now) slave) result }
{
    let table = HEADER_BYTES + HEADER_OFFSETS * width;
    let size = ENTRY_OFFSETS * width;
    let entry = table + size * slave;
    let directory = offset_at(file, width, entry);
    let count = byte_at(file, entry + width);
    mark_rounds(file, width, directory, count)
}

// Those of every slave: each directory is read once for all rounds.
pub fn all_held(file: &[u8], held: &mut [u8])
    requires { AcceptedFile file.now × (slave_count file.now ≤ length held.old) }
    ensures { AllHold (decode file.now) held.new }
{
    let width = width_of(file);
    for slave in 0..slave_count(file) {
        held[slave] = rounds_held(file, width, slave);
    }
}
