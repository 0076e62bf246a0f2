// Readers of header and slaves, for a file that is known to be accepted. Each says what the decoded cluster holds.
ghost use Rattle.std.specs.Prelude.{◌≡◌, ◌++◌, ◌≤◌, ◌<◌, length, drop};
ghost use Rattle.file.specs.Rules.Cluster.{is_awake, logical_name, logical_names, physical_name, comparison_value};
ghost use Rattle.file.specs.Rules.Decode.{decode};
ghost use Rattle.file.specs.Inner.Places.{slave_of};
ghost use Rattle.file.specs.Inner.Typed.{file_in, record_in, name_in_lem, operation_in};
ghost use Rattle.file.specs.Inner.Accepted.{AcceptedFile, WidthOf, EpochAt, SleepAt, slave_count, Placed, PendingIs};

use crate::layout::{
    AWAKE, COMPARISON_VALUE_PLACE, COUNT_PLACE, EDITION_PLACE, ENTRY_OFFSETS, EPOCH_OFFSETS,
    FLAG_FIELD, LOGICAL_NAME_PLACE, OFFSET_WIDTH, PENDING_NAME_FIELD, PENDING_PB2_FIELD,
    PENDING_PB3_FIELD, PHYSICAL_NAME_PLACE, SLEEP_BYTES, SLEEP_OFFSETS, TABLE_PLACE, WIDE_EDITION,
    WIDE_OFFSET_WIDTH,
};
use crate::numbers::{byte_at, u64_at};
use crate::operations::{file_number_of, operation_of};
use crate::types::{FileNumber, LogicalName, Operation, PLACES_EACH, RecordNumber, SlavePlaces};

// The bytes of an offset in a file, by its edition: "edition 2's .. if byte 2 is present and is 2, otherwise those of edition 1".
pub fn width_of(file: &[u8]) -> usize
    ensures { WidthOf file.now result }
{
    if file.len() <= EDITION_PLACE {
        return OFFSET_WIDTH;
    }
    if file[EDITION_PLACE] != WIDE_EDITION {
        return OFFSET_WIDTH;
    }
    WIDE_OFFSET_WIDTH
}

// The same of an accepted file: its third byte is 1 or 2, and an offset has twice as many bytes. It is a product and no choice, since a round
// asks it of every slave.
pub fn accepted_width(file: &[u8]) -> usize
    requires { AcceptedFile file.now }
    ensures { WidthOf file.now result }
{
    OFFSET_WIDTH * byte_at(file, EDITION_PLACE)
}

// Where the header keeps the epoch. The pending operation stands behind it.
pub fn epoch_place(file: &[u8]) -> usize
    requires { AcceptedFile file.now }
    ensures { EpochAt file.now result }
{
    TABLE_PLACE + EPOCH_OFFSETS * accepted_width(file)
}

// The number of slaves.
pub fn slave_count(file: &[u8]) -> usize
    requires { AcceptedFile file.now }
    ensures { result ≡ slave_count file.now }
{
    byte_at(file, COUNT_PLACE)
}

pub fn read_epoch(file: &[u8]) -> u8
    requires { AcceptedFile file.now }
    ensures { result ≡ (decode file.now).epoch }
{
    file[epoch_place(file)]
}

// The pending flag and the pending operation, PB2 split into file number and operation.
#[derive(Drop)]
pub struct Pending {
    pub flag: u8,
    pub name: LogicalName,
    pub number: FileNumber,
    pub operation: Operation,
    pub record: RecordNumber,
}

pub fn read_pending(file: &[u8]) -> Pending
    requires { AcceptedFile file.now }
    ensures { PendingIs (decode file.now) result.flag (name_in_lem result.name) (file_in result.number) (operation_in result.operation) (record_in result.«record») }
{
    let epoch = epoch_place(file);
    let pb2 = file[epoch + PENDING_PB2_FIELD];
    Pending {
        flag: file[epoch + FLAG_FIELD],
        name: LogicalName::new(file[epoch + PENDING_NAME_FIELD]),
        number: file_number_of(pb2),
        operation: operation_of(pb2),
        record: RecordNumber(file[epoch + PENDING_PB3_FIELD]),
    }
}

// A slave's logical name.
pub fn logical_name(file: &[u8], places: &SlavePlaces, slave: usize) -> LogicalName
    requires { Placed file.now places.now × (slave < slave_count file.now) }
    ensures { name_in_lem result ≡ logical_name (slave_of (decode file.now) slave) }
{
    let place = places[PLACES_EACH * slave] as usize;
    let at = place + LOGICAL_NAME_PLACE;
    LogicalName::new(file[at])
}

// Where the slave table keeps a slave's sleep byte: behind the header, the entries before, its directory's offset and its file count.
pub fn sleep_place(file: &[u8], slave: usize) -> usize
    requires { AcceptedFile file.now × (slave < slave_count file.now) }
    ensures { SleepAt file.now slave result }
{
    let width = accepted_width(file);
    let offsets = SLEEP_OFFSETS + ENTRY_OFFSETS * slave;
    SLEEP_BYTES + width * offsets
}

// Whether a slave is awake.
pub fn is_awake(file: &[u8], slave: usize) -> bool
    requires { AcceptedFile file.now × (slave < slave_count file.now) }
    ensures { result ≡ is_awake (slave_of (decode file.now) slave) }
{
    file[sleep_place(file, slave)] == AWAKE
}

// Each slave's logical name, in the order of the slave table, put in front of whatever else the lent slice holds.
pub fn logical_names(file: &[u8], places: &SlavePlaces, names: &mut [u8])
    requires { Placed file.now places.now × (slave_count file.now ≤ length names.old) }
    ensures { names.new ≡ logical_names (decode file.now) ++ drop (slave_count file.now) names.old }
{
    let count = slave_count(file);
    for slave in 0..count {
        let name = logical_name(file, places, slave);
        names[slave] = name.0;
    }
}

// A slave's physical name.
pub fn physical_name(file: &[u8], places: &SlavePlaces, slave: usize) -> u64
    requires { Placed file.now places.now × (slave < slave_count file.now) }
    ensures { result ≡ physical_name (slave_of (decode file.now) slave) }
{
    let place = places[PLACES_EACH * slave + 1] as usize;
    u64_at(file, place + PHYSICAL_NAME_PLACE)
}

// A slave's comparison value.
pub fn comparison_value(file: &[u8], places: &SlavePlaces, slave: usize) -> u64
    requires { Placed file.now places.now × (slave < slave_count file.now) }
    ensures { result ≡ comparison_value (slave_of (decode file.now) slave) }
{
    let place = places[PLACES_EACH * slave] as usize;
    u64_at(file, place + COMPARISON_VALUE_PLACE)
}
