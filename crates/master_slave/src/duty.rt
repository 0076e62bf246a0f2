// The slaves doing what an operation that is pending asks of them, in a file that is known to be accepted.
ghost use Rattle.std.specs.Prelude.{◌≡◌, [], ◌≤◌, length};
ghost use Rattle.file.specs.Inner.Typed.{file_in, record_in, name_in_lem};
ghost use Rattle.file.specs.Rules.Decode.{decode};
ghost use Rattle.file.specs.Inner.Accepted.{Becomes, Placed};
ghost use Rattle.frame.specs.Rules.Fireworks.{data_firework};
ghost use Rattle.master_slave.specs.Rules.Bus.{slots};
ghost use Rattle.master_slave.specs.Rules.Slaves.{comparing, baptizing, may_write, sent_to, slaves_after};
ghost use Rattle.master_slave.specs.Inner.Carried.{Heard, Carried};
ghost use Rattle.master_slave.specs.Inner.Duties.{reading_at, writing_at, duty_at, data_in, duty_effect};

use crate::pending::Duty;
use crate::slaves::{COMPARE_SLOT, baptize_slave, compare_slave, read_slave, write_slave};
use crate::slots::{NOBODY, mask_to, silence};
use crate::types::{DataBytes, RecordAddress};
use file::readers::slave_count;
use file::types::{FileNumber, LogicalName, RecordNumber, SlavePlaces};
use frame::firework::MSD;

// The loop stands in each round: what a slave's step is lent differs (the file read or written, buffer and last slot or data), and a closure that
// takes them is no form of the portable C file.
fn read_round(file: &[u8], places: &SlavePlaces, address: RecordAddress, buffer: &mut [u8]) -> u64
    requires { Placed file.now places.now × (slots ≤ length buffer.old) }
    ensures { Heard (sent_to (reading_at address) (decode file.now).slaves) data_firework buffer.old buffer.new result }
{
    silence(buffer, MSD);
    let mut last = 0u64;
    for slave in 0..slave_count(file) {
        last = read_slave(file, places, slave, address, buffer, last);
    }
    last
}

// Who replies sends 0x00 in slot 1, and the byte stays 0x00 whoever replies too: the first reply settles the round.
fn compare_round(file: &[u8], places: &SlavePlaces, name: LogicalName, buffer: &mut [u8]) -> u64
    requires { Placed file.now places.now × (slots ≤ length buffer.old) }
    ensures { Heard (sent_to (comparing (name_in_lem name)) (decode file.now).slaves) data_firework buffer.old buffer.new result }
{
    silence(buffer, MSD);
    let mut last = 0u64;
    for slave in 0..slave_count(file) {
        last = compare_slave(file, places, slave, name, buffer, last);
        if last == COMPARE_SLOT {
            return COMPARE_SLOT;
        }
    }
    last
}

// "except in 0x3D and in any record 0x00".
const HEADER_RECORD: RecordNumber = RecordNumber(0x00);

// Whether a write may change the record.
#[tactic(auto, unfolding(crate::specs::Rules::Slaves::may_write, file::specs::Rules::Order::both))]
fn may_write(number: FileNumber, record: RecordNumber) -> bool
    ensures { result ≡ may_write (file_in number) (record_in «record») }
{
    if number == FileNumber::DOCUMENTATION {
        return false;
    }
    record != HEADER_RECORD
}

#[tactic(auto, using(crate::proofs::Changing::changes, crate::proofs::DataLaws::writes), unfolding(crate::specs::Rules::Slaves::slaves_after))]
fn write_round(file: &mut [u8], places: &SlavePlaces, address: RecordAddress, bytes: DataBytes)
    requires { Placed file.old places.now }
    ensures { Becomes file.new (slaves_after (writing_at address) (data_in bytes) (decode file.old)) }
{
    if !may_write(address.number, address.record) {
        return;
    }
    for slave in 0..slave_count(file) {
        write_slave(file, places, slave, address, bytes);
    }
}

#[tactic(auto, using(crate::proofs::Changing::changes, crate::proofs::Kept::changed_bytes), unfolding(crate::specs::Rules::Slaves::slaves_after))]
fn baptize_round(file: &mut [u8], places: &SlavePlaces, name: LogicalName)
    requires { Placed file.old places.now }
    ensures { Becomes file.new (slaves_after (baptizing (name_in_lem name)) [] (decode file.old)) }
{
    for slave in 0..slave_count(file) {
        baptize_slave(file, places, slave, name);
    }
}

// The duty done, with the data where it is a write. The mask of the slots in which someone sent.
pub fn do_duty(
    file: &mut [u8],
    places: &SlavePlaces,
    duty: Duty,
    address: RecordAddress,
    bytes: DataBytes,
    buffer: &mut [u8],
) -> u64
    requires { Placed file.old places.now × (slots ≤ length buffer.old) }
    ensures { Carried (duty_effect (duty_at duty address) (data_in bytes) (decode file.old)) data_firework buffer.old buffer.new result file.new }
{
    match duty {
        Duty::Nothing => {
            silence(buffer, MSD);
            NOBODY
        }
        Duty::Read => {
            let last = read_round(file, places, address, buffer);
            mask_to(last)
        }
        Duty::Write => {
            silence(buffer, MSD);
            write_round(file, places, address, bytes);
            NOBODY
        }
        Duty::Compare => {
            let last = compare_round(file, places, address.name, buffer);
            mask_to(last)
        }
        Duty::Baptize => {
            silence(buffer, MSD);
            baptize_round(file, places, address.name);
            NOBODY
        }
        Duty::Sleep => {
            silence(buffer, MSD);
            NOBODY
        }
    }
}
