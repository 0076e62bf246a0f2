// What is pending, and what it asks of the slaves, in a file that is known to be accepted.
ghost use Rattle.std.specs.Prelude.{◌≡◌};
ghost use Rattle.file.specs.Inner.Typed.{operation_in, file_in, record_in, name_in_lem};
ghost use Rattle.file.specs.Rules.Decode.{decode};
ghost use Rattle.file.specs.Inner.Accepted.{AcceptedFile, Becomes};
ghost use Rattle.file.specs.Rules.Cluster.{pb2_of};
ghost use Rattle.file.specs.Rules.Legal.{LegalPending};
ghost use Rattle.master_slave.specs.Rules.Slaves.{pending_duty, with_address};
ghost use Rattle.master_slave.specs.Inner.Duties.{execution_at, duty_at, duty_for};

use crate::types::RecordAddress;
use file::layout::PENDING;
use file::readers::read_pending;
use file::types::{FileNumber, LogicalName, Operation, RecordNumber};
use file::writers::{set_epoch, set_pending};

// "An accepted MSA sets the epoch to PB0 and becomes pending until the next one".
#[tactic(auto, using(crate::proofs::AddressLaws::becoming))]
pub fn become_pending(
    file: &mut [u8],
    epoch: u8,
    name: LogicalName,
    number: FileNumber,
    operation: Operation,
    record: RecordNumber,
)
    requires { AcceptedFile file.old × LegalPending (with_address (decode file.old) epoch (name_in_lem name) (pb2_of (file_in number) (operation_in operation)) (record_in «record»)) }
    ensures { Becomes file.new (with_address (decode file.old) epoch (name_in_lem name) (pb2_of (file_in number) (operation_in operation)) (record_in «record»)) }
{
    set_epoch(file, epoch);
    set_pending(file, name, number, operation, record);
}

#[derive(Clone, Copy)]
pub enum Duty {
    Nothing,
    Read,
    Write,
    Compare,
    Baptize,
    Sleep,
}

// A duty, and the slaves and the record that it is about.
#[derive(Clone, Copy)]
pub struct PendingDuty {
    pub duty: Duty,
    pub address: RecordAddress,
}

// "Execute 0x08 record 2", "Record 1", "an execute of record 4 of 0x08", "Any other: nothing."
#[tactic(auto, unfolding(crate::specs::Rules::Slaves::execution_of, crate::specs::Inner::Duties::duty_at))]
fn execution_of(address: RecordAddress) -> Duty
    ensures { duty_at result address ≡ execution_at address }
{
    if address.number != FileNumber::CONFIGURATION {
        return Duty::Nothing;
    }
    if address.record == RecordNumber::COMPARISON_HIGH {
        return Duty::Compare;
    }
    if address.record == RecordNumber::NAMES {
        return Duty::Baptize;
    }
    if address.record == RecordNumber::SLEEP {
        return Duty::Sleep;
    }
    Duty::Nothing
}

// The duty of a pending operation, by its number.
#[tactic(auto, unfolding(crate::specs::Inner::Duties::duty_for, crate::specs::Inner::Duties::duty_at))]
fn duty_of(operation: Operation, address: RecordAddress) -> Duty
    ensures { duty_at result address ≡ duty_for (operation_in operation) address }
{
    if operation == Operation::READ {
        return Duty::Read;
    }
    if operation == Operation::WRITE {
        return Duty::Write;
    }
    if operation != Operation::EXECUTE {
        return Duty::Nothing;
    }
    execution_of(address)
}

#[tactic(auto, using(crate::proofs::DataLaws::pending_ways), unfolding(crate::specs::Inner::Duties::duty_at))]
pub fn pending_duty(file: &[u8]) -> PendingDuty
    requires { AcceptedFile file.now }
    ensures { duty_at result.duty result.address ≡ pending_duty (decode file.now) }
{
    let pending = read_pending(file);
    let name = pending.name;
    let number = pending.number;
    let record = pending.record;
    let address = RecordAddress {
        name,
        number,
        record,
    };
    if pending.flag != PENDING {
        let duty = Duty::Nothing;
        return PendingDuty { duty, address };
    }
    let duty = duty_of(pending.operation, address);
    PendingDuty { duty, address }
}
