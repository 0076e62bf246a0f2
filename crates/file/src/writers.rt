// Stores in a file that is known to be accepted. A store leaves the encoding of the cluster with that field or those bytes.
ghost use Rattle.std.specs.Prelude.{◌≡◌, [], ◌∷◌, ◌+◌, ◌≤◌, ◌<◌, length};
ghost use Rattle.std.proofs.lemmas.List.Edits.{sets};
ghost use Rattle.file.specs.Rules.Layout.{pending_flag, record_size};
ghost use Rattle.file.specs.Inner.Layout.{logical_name_place};
ghost use Rattle.file.specs.Inner.Typed.{file_in, record_in, name_in_lem, operation_in};
ghost use Rattle.file.specs.Rules.Cluster.{configuration, new_logical_name, pb2_of};
ghost use Rattle.file.specs.Rules.Decode.{decode};
ghost use Rattle.file.specs.Rules.Legal.{LegalPending};
ghost use Rattle.file.specs.Inner.Places.{slave_of, put_byte, put_sleep};
ghost use Rattle.file.specs.Rules.Changes.{with_epoch, with_pending};
ghost use Rattle.file.specs.Inner.Accepted.{AcceptedFile, slave_count, Becomes, Placed};

use crate::layout::{
    FLAG_FIELD, LOGICAL_NAME_PLACE, NEW_LOGICAL_NAME_PLACE, PENDING, PENDING_NAME_FIELD,
    PENDING_PB2_FIELD, PENDING_PB3_FIELD,
};
use crate::operations::pb2_of;
use crate::readers::{epoch_place, sleep_place};
use crate::types::{FileNumber, LogicalName, Operation, PLACES_EACH, RecordNumber, SlavePlaces};

pub fn set_epoch(file: &mut [u8], epoch: u8)
    requires { AcceptedFile file.old }
    ensures { Becomes file.new (with_epoch (decode file.old) epoch) }
{
    let at = epoch_place(file);
    file[at] = epoch;
}

// An operation becomes pending.
pub fn set_pending(
    file: &mut [u8],
    name: LogicalName,
    number: FileNumber,
    operation: Operation,
    record: RecordNumber,
)
    requires { AcceptedFile file.old × LegalPending (with_pending (decode file.old) pending_flag (name_in_lem name) (pb2_of (file_in number) (operation_in operation)) (record_in «record»)) }
    ensures { Becomes file.new (with_pending (decode file.old) pending_flag (name_in_lem name) (pb2_of (file_in number) (operation_in operation)) (record_in «record»)) }
{
    let pb2 = pb2_of(number, operation);
    let epoch = epoch_place(file);
    file[epoch + FLAG_FIELD] = PENDING;
    file[epoch + PENDING_NAME_FIELD] = name.0;
    file[epoch + PENDING_PB2_FIELD] = pb2;
    file[epoch + PENDING_PB3_FIELD] = record.0;
}

// A slave's new logical name becomes its logical name.
pub fn take_new_name(file: &mut [u8], places: &SlavePlaces, slave: usize)
    requires { Placed file.old places.now × (slave < slave_count file.old) }
    ensures { Becomes file.new (put_byte (decode file.old) slave configuration logical_name_place (new_logical_name (slave_of (decode file.old) slave))) }
{
    let at = places[PLACES_EACH * slave] as usize;
    let name = file[at + NEW_LOGICAL_NAME_PLACE];
    file[at + LOGICAL_NAME_PLACE] = name;
}

// A slave's sleep byte: 0 awake, 1 asleep.
pub fn set_sleep(file: &mut [u8], slave: usize, asleep: u8)
    requires { AcceptedFile file.old × (slave < slave_count file.old) × (asleep ≤ 1) }
    ensures { Becomes file.new (put_sleep (decode file.old) slave asleep) }
{
    let at = sleep_place(file, slave);
    file[at] = asleep;
}

// The four bytes of the record at a place.
pub fn store_record(file: &mut [u8], place: usize, b0: u8, b1: u8, b2: u8, b3: u8)
    requires { place + record_size ≤ length file.old }
    ensures { file.new ≡ sets file.old place (b0 ∷ b1 ∷ b2 ∷ b3 ∷ []) }
{
    file[place] = b0;
    file[place + 1] = b1;
    file[place + 2] = b2;
    file[place + 3] = b3;
}
