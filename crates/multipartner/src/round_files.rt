// Where the entries of a round lie that each slave runs: its round file.
ghost use Rattle.std.specs.Prelude.{◌≡◌, ◌<◌, length};
ghost use Rattle.file.specs.Inner.Typed.{file_in};
ghost use Rattle.file.specs.Rules.Decode.{decode};
ghost use Rattle.file.specs.Inner.Places.{slaves_room};
ghost use Rattle.file.specs.Inner.Accepted.{slave_count, Placed};
ghost use Rattle.multipartner.specs.Inner.Slots.{PlannedFileIs, RoundFileIs, RoundFilesAre};

use file::layout::RECORD_SIZE;
use file::readers::{is_awake, logical_name, slave_count};
use file::records::find_file;
use file::types::{FileNumber, LogicalName, SLAVES_ROOM, SlavePlaces};

// Where a slave's entries of a round begin, and where they end: both 0 where there are none, as `planned_file` promises, so that a loop over
// them needs no test, as it would of an Option. A Range is not Copy.
#[derive(Clone, Copy)]
pub struct RoundFile {
    pub start: usize,
    pub end: usize,
}

const NO_ROUND_FILE: RoundFile = RoundFile { start: 0, end: 0 };

// The entries planned for a slave, awake or asleep.
pub fn planned_file(file: &[u8], places: &SlavePlaces, slave: usize, round: FileNumber) -> RoundFile
    requires { Placed file.now places.now × (slave < slave_count file.now) }
    ensures { PlannedFileIs (decode file.now) (file_in round) slave result.start result.end }
{
    let name = logical_name(file, places, slave);
    if name == LogicalName::UNNAMED {
        return NO_ROUND_FILE;
    }
    let found = find_file(file, slave, round);
    let Some(bytes) = found else {
        return NO_ROUND_FILE;
    };
    RoundFile {
        start: bytes.place + RECORD_SIZE,
        end: bytes.place + bytes.size,
    }
}

// Those that it runs.
#[tactic(auto, unfolding(crate::specs::Inner::Slots::entries_in))]
fn round_file(file: &[u8], places: &SlavePlaces, slave: usize, round: FileNumber) -> RoundFile
    requires { Placed file.now places.now × (slave < slave_count file.now) }
    ensures { RoundFileIs (decode file.now) (file_in round) slave result.start result.end }
{
    if !is_awake(file, slave) {
        return NO_ROUND_FILE;
    }
    planned_file(file, places, slave, round)
}

// Where the entries begin that a slave still has to look at, and where they end, in four bytes each, for the stack.
#[derive(Clone, Copy)]
pub struct OpenEntries {
    pub start: u32,
    pub end: u32,
}

impl OpenEntries {
    pub const NONE: OpenEntries = OpenEntries { start: 0, end: 0 };
}

// All that it runs, of every slave, put in front of whatever else the lent array holds.
pub fn round_files(
    file: &[u8],
    places: &SlavePlaces,
    round: FileNumber,
    lists: &mut [OpenEntries; SLAVES_ROOM],
)
    requires { Placed file.now places.now × (length lists.old ≡ slaves_room) }
    ensures { RoundFilesAre (decode file.now) (file_in round) lists.new }
{
    let count = slave_count(file);
    for slave in 0..count {
        let found = round_file(file, places, slave, round);
        lists[slave] = OpenEntries {
            start: found.start as u32,
            end: found.end as u32,
        };
    }
}
