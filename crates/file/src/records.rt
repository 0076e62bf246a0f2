// Where a slave keeps a file or a record, for a file that is known to be accepted. Each says what the decoded cluster holds.
ghost use Rattle.std.specs.Prelude.{◌≡◌, ◌<◌};
ghost use Rattle.file.specs.Rules.Decode.{decode};
ghost use Rattle.file.specs.Inner.Typed.{file_in, record_in};
ghost use Rattle.file.specs.Inner.Accepted.{AcceptedFile, WidthOf, slave_count, Placed, find_file, find_record, is_documented};
ghost use Rattle.file.specs.Inner.Checked.{EntriesFit, search_directory};
ghost use Rattle.file.specs.Inner.FileAnswers.{found_file, found_record};

use crate::layout::{
    EDITION_PLACE, ENTRY_OFFSETS, HEADER_BYTES, HEADER_OFFSETS, NEEDED_CONFIGURATION,
    NEEDED_DOCUMENTATION, OFFSET_WIDTH, RECORD_COUNT_PLACE, RECORD_SIZE, WIDE_EDITION,
    WIDE_OFFSET_WIDTH,
};
use crate::numbers::{byte_at, offset_at};
use crate::types::{FileNumber, PLACES_EACH, RecordNumber, SlavePlaces};

// Where a slave keeps a file, and how many bytes it has.
#[derive(Clone, Copy)]
pub struct FileBytes {
    pub place: usize,
    pub size: usize,
}

// What a directory states for a file number.
fn search_directory(
    file: &[u8],
    width: usize,
    directory: usize,
    count: usize,
    number: usize,
) -> Option<FileBytes>
    requires { EntriesFit width file.now directory count }
    ensures { found_file result ≡ search_directory width file.now number directory count }
{
    let entry_size = ENTRY_OFFSETS * width;
    let end = directory + entry_size * count;
    // By `for index in 0..count` the search at 32 slaves costs 623 instructions in place of 462.
    let mut entry = directory;
    while entry < end {
        if byte_at(file, entry) == number {
            let last = byte_at(file, entry + RECORD_COUNT_PLACE);
            let place = offset_at(file, width, entry + width);
            let size = RECORD_SIZE * (last + 1);
            return Some(FileBytes { place, size });
        }
        entry = entry + entry_size;
    }
    None
}

// Where a slave keeps a file, or that it has none, in an edition: the compiler writes the search once for each width, with its numbers, since
// a round asks it of every slave.
fn find_file_at<const WIDTH: usize>(
    file: &[u8],
    slave: usize,
    number: FileNumber,
) -> Option<FileBytes>
    requires { AcceptedFile file.now × WidthOf file.now WIDTH × (slave < slave_count file.now) }
    ensures { found_file result ≡ find_file (decode file.now) slave (file_in number) }
{
    let table = HEADER_BYTES + HEADER_OFFSETS * WIDTH;
    let size = ENTRY_OFFSETS * WIDTH;
    let entry = table + size * slave;
    let directory = offset_at(file, WIDTH, entry);
    let count = byte_at(file, entry + WIDTH);
    search_directory(file, WIDTH, directory, count, number.0 as usize)
}

pub fn find_file(file: &[u8], slave: usize, number: FileNumber) -> Option<FileBytes>
    requires { AcceptedFile file.now × (slave < slave_count file.now) }
    ensures { found_file result ≡ find_file (decode file.now) slave (file_in number) }
{
    if file[EDITION_PLACE] == WIDE_EDITION {
        return find_file_at::<WIDE_OFFSET_WIDTH>(file, slave, number);
    }
    find_file_at::<OFFSET_WIDTH>(file, slave, number)
}

// Where a slave keeps a record of a file, or that it has none.
pub fn find_record(
    file: &[u8],
    slave: usize,
    number: FileNumber,
    record: RecordNumber,
) -> Option<usize>
    requires { AcceptedFile file.now × (slave < slave_count file.now) }
    ensures { found_record result ≡ find_record (decode file.now) slave (file_in number) (record_in «record») }
{
    let bytes = find_file(file, slave, number)?;
    let start = RECORD_SIZE * (record.0 as usize);
    if bytes.size < start + RECORD_SIZE {
        return None;
    }
    Some(bytes.place + start)
}

// The same, for a write or a read in a round: the records of 0x08 that every slave has need no search.
pub fn place_of_record(
    file: &[u8],
    places: &SlavePlaces,
    slave: usize,
    number: FileNumber,
    record: RecordNumber,
) -> Option<usize>
    requires { Placed file.now places.now × (slave < slave_count file.now) }
    ensures { found_record result ≡ find_record (decode file.now) slave (file_in number) (record_in «record») }
{
    // The least r that a slave has is a count of records, so a record's number is compared with it as a number, here and below.
    if number == FileNumber::CONFIGURATION {
        if record.0 <= NEEDED_CONFIGURATION {
            let place = places[PLACES_EACH * slave] as usize;
            return Some(place + RECORD_SIZE * (record.0 as usize));
        }
    }
    find_record(file, slave, number, record)
}

// Whether a record is one of 0x3D that every slave has: one test, which a loop along the slaves makes once.
#[tactic(auto, unfolding(crate::specs::Inner::Accepted::is_documented, crate::specs::Rules::Order::both))]
fn is_documented(number: FileNumber, record: RecordNumber) -> bool
    ensures { result ≡ is_documented (file_in number) (record_in «record») }
{
    if number != FileNumber::DOCUMENTATION {
        return false;
    }
    record.0 <= NEEDED_DOCUMENTATION
}

// The same for a read alone: the records of 0x3D that every slave has need none either.
pub fn read_place(
    file: &[u8],
    places: &SlavePlaces,
    slave: usize,
    number: FileNumber,
    record: RecordNumber,
) -> Option<usize>
    requires { Placed file.now places.now × (slave < slave_count file.now) }
    ensures { found_record result ≡ find_record (decode file.now) slave (file_in number) (record_in «record») }
{
    if is_documented(number, record) {
        let place = places[PLACES_EACH * slave + 1] as usize;
        return Some(place + RECORD_SIZE * (record.0 as usize));
    }
    place_of_record(file, places, slave, number, record)
}
