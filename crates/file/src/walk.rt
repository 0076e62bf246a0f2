// Ground 6: the walk along table and directories. An offset is followed only after it was compared with the running place.
ghost use Rattle.std.specs.Prelude.{◌≡◌, ◌+◌, ◌*◌, ◌-◌, ◌≤◌, length};
ghost use Rattle.file.specs.Inner.Numbers.{ByteAt};
ghost use Rattle.file.specs.Rules.Bytes.{part, all_zero};
ghost use Rattle.file.specs.Rules.Layout.{OffsetWidth, header_size, max_length};
ghost use Rattle.file.specs.Rules.Cluster.{configuration};
ghost use Rattle.file.specs.Inner.Layout.{needed_configuration};
ghost use Rattle.file.specs.Inner.Typed.{file_in};
ghost use Rattle.file.specs.Inner.Places.{places_each};
ghost use Rattle.file.specs.Inner.Checked.{EntriesFit, next_entry, fits_so_far, states, stated_place, Arrives, DirectoryWalked, EntryWalked, EntryEnds, SlaveStated, SlaveWalked, SlavesWalked};

use crate::layout::{
    ENTRY_OFFSETS, FILE_NUMBERS, FILL_PLACE, HEADER_BYTES, HEADER_OFFSETS, LEAST_RECORD,
    MOST_SLEEP, NEEDED_CONFIGURATION, NEEDED_DOCUMENTATION, OFFSET_WIDTH, RECORD_COUNT_PLACE,
    RECORD_SIZE, SLEEP_FIELD, TABLE_FILL_FIELD, WIDE_OFFSET_WIDTH,
};
use crate::numbers::{byte_at, offset_at, u16_at};
use crate::types::{FileNumber, PLACES_EACH};

// Whether the zeros that fill an entry up are zero: none in edition 1, two in edition 2.
fn is_filled(file: &[u8], width: usize, at: usize) -> bool
    requires { OffsetWidth width × (at + (width - 2) ≤ length file.now) }
    ensures { result ≡ all_zero (part file.now at (width - 2)) }
{
    if width == OFFSET_WIDTH {
        return true;
    }
    u16_at(file, at) == 0
}

// Whether a directory entry may come next: its file number is low or more, it counts records, its zeros are zero, and its offset is the
// running place.
fn is_next(
    file: &[u8],
    width: usize,
    entry: usize,
    number: usize,
    last: usize,
    low: usize,
    place: usize,
) -> bool
    requires { EntriesFit width file.now entry 1 × ByteAt file.now entry number × ByteAt file.now (entry + 1) last }
    ensures { result ≡ next_entry width file.now entry low place }
{
    if number < low {
        return false;
    }
    if last < LEAST_RECORD {
        return false;
    }
    if !is_filled(file, width, entry + FILL_PLACE) {
        return false;
    }
    offset_at(file, width, entry + width) == place
}

// Whether no file number was above the last one and no file ended past the bytes: numbers and places rise, so it is enough to look at
// those of the last entry.
fn fits_so_far(file: &[u8], low: usize, place: usize) -> bool
    ensures { result ≡ fits_so_far file.now low place }
{
    if FILE_NUMBERS < low {
        return false;
    }
    place <= file.len()
}

// Where the files of a directory end that fits so far, and the least number that may follow its last one.
#[derive(Drop)]
pub struct DirectoryEnd {
    pub low: usize,
    pub place: usize,
}

// The directory at a place that the running place has come to, of count entries, but whether it fits; none where it is broken. The first entry
// follows no file number.
fn walk_directory(file: &[u8], width: usize, directory: usize, count: usize) -> Option<DirectoryEnd>
    requires { EntriesFit width file.now directory count }
    ensures { DirectoryWalked width file.now directory count result }
{
    if count == 0 {
        return Some(DirectoryEnd {
            low: 0,
            place: directory,
        });
    }
    let size = ENTRY_OFFSETS * width;
    let end = directory + size * count;
    let first = byte_at(file, directory);
    let records = byte_at(file, directory + RECORD_COUNT_PLACE);
    if !is_next(file, width, directory, first, records, 0, end) {
        return None;
    }
    // The loops along a directory count places and not entries: by `for index in 1..count`, and so in the two searches below, the check of 32
    // slaves of 64 files costs 41,209 instructions in place of 36,793, of two files 3,545 in place of 3,225.
    let mut entry = directory + size;
    let mut low = first + 1;
    let mut place = end + RECORD_SIZE * (records + 1);
    while entry < end {
        let number = byte_at(file, entry);
        let last = byte_at(file, entry + RECORD_COUNT_PLACE);
        if !is_next(file, width, entry, number, last, low, place) {
            return None;
        }
        low = number + 1;
        place = place + RECORD_SIZE * (last + 1);
        entry = entry + size;
    }
    Some(DirectoryEnd { low, place })
}

// Whether a directory entry states the wanted file with enough records.
fn is_stated(file: &[u8], entry: usize, wanted: FileNumber, least: u8) -> bool
    requires { entry + 2 ≤ length file.now }
    ensures { result ≡ states file.now (file_in wanted) least entry }
{
    if FileNumber(file[entry]) != wanted {
        return false;
    }
    least <= file[entry + RECORD_COUNT_PLACE]
}

// Where a walked directory states the wanted file to lie, 0 where it does not: found from the front, for a low file number. It and the next
// stay two functions: they differ in each line of the loop, so one would choose between both loops.
fn stated_from_front(
    file: &[u8],
    width: usize,
    directory: usize,
    count: usize,
    wanted: FileNumber,
    least: u8,
) -> u16
    requires { EntriesFit width file.now directory count × Arrives width file.now directory count }
    ensures { result ≡ stated_place width file.now (file_in wanted) least 0 directory count }
{
    let size = ENTRY_OFFSETS * width;
    let end = directory + size * count;
    let mut entry = directory;
    while entry < end {
        if is_stated(file, entry, wanted, least) {
            return offset_at(file, width, entry + width) as u16;
        }
        entry = entry + size;
    }
    0
}

// The same from the back, for a high file number.
fn stated_from_back(
    file: &[u8],
    width: usize,
    directory: usize,
    count: usize,
    wanted: FileNumber,
    least: u8,
) -> u16
    requires { EntriesFit width file.now directory count × Arrives width file.now directory count }
    ensures { result ≡ stated_place width file.now (file_in wanted) least 0 directory count }
{
    let size = ENTRY_OFFSETS * width;
    let mut entry = directory + size * count;
    while directory < entry {
        entry = entry - size;
        if is_stated(file, entry, wanted, least) {
            return offset_at(file, width, entry + width) as u16;
        }
    }
    0
}

// Where a walked directory states 0x08 to lie in the needed size. Mostly it is the first file, which lies behind the directory.
fn configuration_place(file: &[u8], width: usize, directory: usize, count: usize) -> u16
    requires { EntriesFit width file.now directory count × Arrives width file.now directory count }
    ensures { result ≡ stated_place width file.now configuration needed_configuration 0 directory count }
{
    if count == 0 {
        return 0;
    }
    let number = FileNumber::CONFIGURATION;
    if is_stated(file, directory, number, NEEDED_CONFIGURATION) {
        let size = ENTRY_OFFSETS * width;
        return (directory + size * count) as u16;
    }
    stated_from_front(file, width, directory, count, number, NEEDED_CONFIGURATION)
}

// What the walk of a good slave found: where its files end, and where 0x08 and 0x3D lie in the needed size, 0 where they do not.
#[derive(Drop)]
pub struct SlaveFound {
    pub end: usize,
    pub configuration: u16,
    pub documentation: u16,
}

// The slave of a table entry, its directory at the running place, but whether its files fit; none where it is broken.
fn walk_entry(file: &[u8], width: usize, entry: usize, place: usize) -> Option<DirectoryEnd>
    requires { EntriesFit width file.now entry 1 × (place ≤ max_length width) }
    ensures { EntryWalked width file.now entry place result }
{
    let after = entry + width;
    let count = byte_at(file, after);
    if offset_at(file, width, entry) != place {
        return None;
    }
    if MOST_SLEEP < byte_at(file, after + SLEEP_FIELD) {
        return None;
    }
    if !is_filled(file, width, after + TABLE_FILL_FIELD) {
        return None;
    }
    let size = ENTRY_OFFSETS * width;
    if file.len() < place + size * count {
        return None;
    }
    walk_directory(file, width, place, count)
}

// The same with where its directory states 0x08 and 0x3D, of a walked slave.
fn with_places(file: &[u8], width: usize, entry: usize, place: usize, end: usize) -> SlaveFound
    requires { EntriesFit width file.now entry 1 × EntryEnds width file.now entry place end }
    ensures { SlaveStated width file.now entry place result }
{
    let count = byte_at(file, entry + width);
    SlaveFound {
        end,
        configuration: configuration_place(file, width, place, count),
        documentation: stated_from_back(
            file,
            width,
            place,
            count,
            FileNumber::DOCUMENTATION,
            NEEDED_DOCUMENTATION,
        ),
    }
}

// A slave in an edition. The compiler writes the walk once for each width, with its numbers; each is a function of its own, since it inlines
// only functions below a size, which both in one exceed.
fn walk_edition<const WIDTH: usize>(file: &[u8], entry: usize, place: usize) -> Option<SlaveFound>
    requires { EntriesFit WIDTH file.now entry 1 × (place ≤ max_length WIDTH) }
    ensures { SlaveWalked WIDTH file.now entry place result }
{
    let end = walk_entry(file, WIDTH, entry, place)?;
    if !fits_so_far(file, end.low, end.place) {
        return None;
    }
    Some(with_places(file, WIDTH, entry, place, end.place))
}

fn walk_slave(file: &[u8], width: usize, entry: usize, place: usize) -> Option<SlaveFound>
    requires { EntriesFit width file.now entry 1 × (place ≤ max_length width) }
    ensures { SlaveWalked width file.now entry place result }
{
    if width == OFFSET_WIDTH {
        return walk_edition::<OFFSET_WIDTH>(file, entry, place);
    }
    walk_edition::<WIDE_OFFSET_WIDTH>(file, entry, place)
}

// Where the files of all slaves end, their places put in front of the lent ones; none where a slave is broken.
pub fn walk_slaves(file: &[u8], width: usize, count: usize, places: &mut [u16]) -> Option<usize>
    requires { EntriesFit width file.now (header_size width) count × (places_each * count ≤ length places.old) }
    ensures { SlavesWalked width file.now count result places.new }
{
    let size = ENTRY_OFFSETS * width;
    let mut entry = HEADER_BYTES + HEADER_OFFSETS * width;
    let mut place = entry + size * count;
    for slave in 0..count {
        let found = walk_slave(file, width, entry, place)?;
        places[PLACES_EACH * slave] = found.configuration;
        places[PLACES_EACH * slave + 1] = found.documentation;
        place = found.end;
        entry = entry + size;
    }
    Some(place)
}
