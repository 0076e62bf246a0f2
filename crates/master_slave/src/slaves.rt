// What one slave does in the data part of a master-slave round, in a file that is known to be accepted.
ghost use Rattle.std.specs.Prelude.{◌≡◌, true, cond, not, [], ◌+◌, ◌≤◌, ◌<◌, length, get_or, eqb};
ghost use Rattle.file.specs.Rules.Order.{both};
ghost use Rattle.file.specs.Rules.Layout.{record_size};
ghost use Rattle.file.specs.Rules.Cluster.{unnamed, broadcast};
ghost use Rattle.file.specs.Rules.Decode.{decode};
ghost use Rattle.file.specs.Inner.Places.{slave_of};
ghost use Rattle.file.specs.Inner.Typed.{file_in, record_in, name_in_lem};
ghost use Rattle.file.specs.Inner.Accepted.{slave_count, Placed, Becomes};
ghost use Rattle.master_slave.specs.Rules.Bus.{slots};
ghost use Rattle.master_slave.specs.Rules.Slaves.{addresses, may_write, is_name_record, written, comparing, baptizing, sleeping, reply_to, slave_after};
ghost use Rattle.master_slave.specs.Rules.Slaves.{falls_asleep, rests_after};
ghost use Rattle.master_slave.specs.Inner.Carried.{Replied, with_slave};
ghost use Rattle.master_slave.specs.Inner.Duties.{reading_at, writing_at, data_in, DataPut};

use crate::slots::{CHECK_SLOT, FIRST_SLOT, send_byte, send_record};
use crate::types::{DataBytes, RecordAddress};
use file::layout::{ASLEEP, AWAKE};
use file::readers::{comparison_value, is_awake, logical_name, physical_name};
use file::records::{find_record, place_of_record, read_place};
use file::types::{FileNumber, LogicalName, RecordNumber, SlavePlaces};
use file::writers::{set_sleep, store_record, take_new_name};

// Whether a slave with its own logical name is addressed.
#[tactic(auto, unfolding(crate::specs::Rules::Slaves::addresses))]
fn is_addressed(name: LogicalName, own: LogicalName) -> bool
    ensures { result ≡ addresses (name_in_lem name) (name_in_lem own) }
{
    if name == LogicalName::UNNAMED {
        return own == LogicalName::UNNAMED;
    }
    if name == LogicalName::BROADCAST {
        return own != LogicalName::UNNAMED;
    }
    own == name
}

// The same for a read: never an unnamed slave.
#[tactic(auto, unfolding(crate::specs::Rules::Slaves::addresses, file::specs::Rules::Order::both))]
fn is_read(name: LogicalName, own: LogicalName) -> bool
    ensures { result ≡ both (addresses (name_in_lem name) (name_in_lem own)) (not (eqb (name_in_lem own) unnamed)) }
{
    if own == name {
        return own != LogicalName::UNNAMED;
    }
    if name == LogicalName::BROADCAST {
        return own != LogicalName::UNNAMED;
    }
    false
}

// The same for a compare: none at broadcast.
#[tactic(auto, unfolding(file::specs::Rules::Order::both))]
fn is_compared(name: LogicalName, own: LogicalName) -> bool
    ensures { result ≡ both (not (eqb (name_in_lem name) broadcast)) (addresses (name_in_lem name) (name_in_lem own)) }
{
    if name == LogicalName::BROADCAST {
        return false;
    }
    is_addressed(name, own)
}

// The last slot of a read's reply, which ends with the check; and that of a compare's, one byte, 0x00.
const READ_SLOT: u64 = CHECK_SLOT as u64;

pub const COMPARE_SLOT: u64 = FIRST_SLOT as u64;

const COMPARE_BYTE: u8 = 0x00;

// Read: the slave's reply joined into the buffer; the last slot that someone has sent in.
pub fn read_slave(
    file: &[u8],
    places: &SlavePlaces,
    slave: usize,
    address: RecordAddress,
    buffer: &mut [u8],
    last: u64,
) -> u64
    requires { Placed file.now places.now × (slave < slave_count file.now) × (slots ≤ length buffer.old) }
    ensures { Replied (reply_to (reading_at address) (slave_of (decode file.now) slave)) buffer.old buffer.new last result }
{
    if !is_awake(file, slave) {
        return last;
    }
    let own = logical_name(file, places, slave);
    if !is_read(address.name, own) {
        return last;
    }
    let found = read_place(file, places, slave, address.number, address.record);
    let Some(place) = found else {
        return last;
    };
    send_record(buffer, file, place);
    READ_SLOT
}

// Compare: the same, where the physical name is at least the comparison value.
pub fn compare_slave(
    file: &[u8],
    places: &SlavePlaces,
    slave: usize,
    name: LogicalName,
    buffer: &mut [u8],
    last: u64,
) -> u64
    requires { Placed file.now places.now × (slave < slave_count file.now) × (slots ≤ length buffer.old) }
    ensures { Replied (reply_to (comparing (name_in_lem name)) (slave_of (decode file.now) slave)) buffer.old buffer.new last result }
{
    if !is_awake(file, slave) {
        return last;
    }
    let own = logical_name(file, places, slave);
    if !is_compared(name, own) {
        return last;
    }
    let value = comparison_value(file, places, slave);
    if physical_name(file, places, slave) < value {
        return last;
    }
    send_byte(buffer, COMPARE_BYTE);
    COMPARE_SLOT
}

// Whether a record is the one that holds the logical name.
#[tactic(auto, unfolding(crate::specs::Rules::Slaves::is_name_record, file::specs::Rules::Order::both))]
fn is_name_record(number: FileNumber, record: RecordNumber) -> bool
    ensures { result ≡ is_name_record (file_in number) (record_in «record») }
{
    if number != FileNumber::CONFIGURATION {
        return false;
    }
    record == RecordNumber::NAMES
}

// The place of the logical name in the record that holds it.
const NAME_BYTE: usize = 3;

// The last byte that a write leaves in the record at a place: a logical name that stands there is kept.
fn last_byte(file: &[u8], place: usize, address: RecordAddress, byte: u8) -> u8
    requires { place + record_size ≤ length file.now }
    ensures { result ≡ cond (is_name_record (file_in address.number) (record_in address.«record»)) (get_or file.now (place + 3) 0) byte }
{
    if is_name_record(address.number, address.record) {
        return file[place + NAME_BYTE];
    }
    byte
}

// The data put into the record at a place.
#[tactic(auto, using(crate::proofs::SlaveLaws::putting))]
fn put_data(file: &mut [u8], place: usize, address: RecordAddress, bytes: DataBytes)
    requires { place + record_size ≤ length file.old }
    ensures { DataPut file.old file.new place (written (file_in address.number) (record_in address.«record») (data_in bytes)) }
{
    let last = last_byte(file, place, address, bytes.b3);
    store_record(file, place, bytes.b0, bytes.b1, bytes.b2, last);
}

// Write: an addressed slave that has the record replaces its bytes by these, the logical name aside.
pub fn write_slave(
    file: &mut [u8],
    places: &SlavePlaces,
    slave: usize,
    address: RecordAddress,
    bytes: DataBytes,
)
    requires { Placed file.old places.now × (slave < slave_count file.old) × (may_write (file_in address.number) (record_in address.«record») ≡ true) }
    ensures { Becomes file.new (with_slave (decode file.old) slave (slave_after (writing_at address) (data_in bytes) (slave_of (decode file.old) slave))) }
{
    if !is_awake(file, slave) {
        return;
    }
    let own = logical_name(file, places, slave);
    if !is_addressed(address.name, own) {
        return;
    }
    let found = place_of_record(file, places, slave, address.number, address.record);
    let Some(place) = found else {
        return;
    };
    put_data(file, place, address, bytes);
}

// Execute of record 1: an addressed slave whose physical name is the comparison value takes its new logical name.
#[tactic(auto, using(crate::proofs::SlaveLaws::baptize_ways))]
pub fn baptize_slave(file: &mut [u8], places: &SlavePlaces, slave: usize, name: LogicalName)
    requires { Placed file.old places.now × (slave < slave_count file.old) }
    ensures { Becomes file.new (with_slave (decode file.old) slave (slave_after (baptizing (name_in_lem name)) [] (slave_of (decode file.old) slave))) }
{
    if !is_awake(file, slave) {
        return;
    }
    let own = logical_name(file, places, slave);
    if !is_addressed(name, own) {
        return;
    }
    let value = comparison_value(file, places, slave);
    if physical_name(file, places, slave) != value {
        return;
    }
    take_new_name(file, places, slave);
}

// Execute of record 4: whether an addressed slave that is awake has the record.
fn falls_asleep(file: &[u8], places: &SlavePlaces, slave: usize, name: LogicalName) -> bool
    requires { Placed file.now places.now × (slave < slave_count file.now) }
    ensures { result ≡ falls_asleep (sleeping (name_in_lem name)) (slave_of (decode file.now) slave) }
{
    if !is_awake(file, slave) {
        return false;
    }
    let own = logical_name(file, places, slave);
    if !is_addressed(name, own) {
        return false;
    }
    let found = find_record(file, slave, FileNumber::CONFIGURATION, RecordNumber::SLEEP);
    found.is_some()
}

// The same slave after that round: asleep, or awake.
#[tactic(auto, using(crate::proofs::SlaveLaws::rest_ways))]
pub fn sleep_slave(file: &mut [u8], places: &SlavePlaces, slave: usize, name: LogicalName)
    requires { Placed file.old places.now × (slave < slave_count file.old) }
    ensures { Becomes file.new (with_slave (decode file.old) slave (rests_after (sleeping (name_in_lem name)) (slave_of (decode file.old) slave))) }
{
    if falls_asleep(file, places, slave, name) {
        set_sleep(file, slave, ASLEEP);
        return;
    }
    set_sleep(file, slave, AWAKE);
}
