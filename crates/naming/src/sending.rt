// The round that a run sends next, and the reply to it.
ghost use Rattle.std.specs.Prelude.{◌≡◌, [], ◌∷◌, ℕ, ◌≤◌, ◌<◌, ◌/◌, ◌%◌};
ghost use Rattle.file.specs.Rules.Bytes.{bytes_of};
ghost use Rattle.file.specs.Rules.Layout.{record_size};
ghost use Rattle.file.specs.Rules.Results.{done};
ghost use Rattle.file.specs.Rules.Cluster.{write_operation, execute_operation};
ghost use Rattle.file.specs.Inner.Typed.{record_in, name_in_lem};
ghost use Rattle.naming.specs.Rules.RunRounds.{half, poll, sent, at_unnamed};
ghost use Rattle.naming.specs.Rules.Pass.{place_of, reply, last_step};
ghost use Rattle.naming.specs.Rules.Run.{round_at};
ghost use Rattle.naming.specs.Rules.Step.{is_reply};
ghost use Rattle.naming.specs.Inner.StepAnswers.{heard, Sends, part_at};

use crate::advance::Reply;
use crate::pass::{BYTE, GIVE_NAME, HALF, HIGH, LAST_STEP, LOW, POLL};
use crate::standing::Standing;
use file::types::{FileNumber, LogicalName, Operation, RecordNumber};
use master_slave::slots::FIRST_SLOT;
use master_slave::types::MasterSlaveRound;

// "a reply in slot 1".
const REPLY_SLOT: u64 = FIRST_SLOT as u64;

// The read that finds out whether a name is taken; at the first name also the extra one that a run begins with.
#[tactic(auto, unfolding(crate::specs::Rules::RunRounds::sent, crate::specs::Rules::RunRounds::at_unnamed))]
pub fn poll_round(name: LogicalName) -> MasterSlaveRound
    ensures { Sends result (sent (poll (name_in_lem name))) }
{
    MasterSlaveRound {
        name,
        number: FileNumber::DOCUMENTATION,
        operation: Operation::READ,
        record: RecordNumber::SERIES,
        b0: 0,
        b1: 0,
        b2: 0,
        b3: 0,
    }
}

// A write to a record of 0x08 of the unnamed slaves.
#[tactic(auto, unfolding(crate::specs::Rules::RunRounds::sent, crate::specs::Rules::RunRounds::at_unnamed))]
fn write_round(record: RecordNumber, b0: u8, b1: u8, b2: u8, b3: u8) -> MasterSlaveRound
    ensures { Sends result (at_unnamed write_operation (record_in «record») (b0 ∷ b1 ∷ b2 ∷ b3 ∷ [])) }
{
    MasterSlaveRound {
        name: LogicalName::UNNAMED,
        number: FileNumber::CONFIGURATION,
        operation: Operation::WRITE,
        record,
        b0,
        b1,
        b2,
        b3,
    }
}

// The same with the four bytes of a number.
fn half_round(record: RecordNumber, value: u64) -> MasterSlaveRound
    requires { value < half }
    ensures { Sends result (at_unnamed write_operation (record_in «record») (bytes_of record_size value)) }
{
    let b0 = (value / BYTE / BYTE / BYTE) as u8;
    let b1 = (value / BYTE / BYTE % BYTE) as u8;
    let b2 = (value / BYTE % BYTE) as u8;
    let b3 = (value % BYTE) as u8;
    write_round(record, b0, b1, b2, b3)
}

// An execute of a record of 0x08 of the unnamed slaves. Not one function with the write: a write's content is its four bytes, that of an execute
// is none, and the promise would have to tell them apart by the operation.
#[tactic(auto, unfolding(crate::specs::Rules::RunRounds::sent, crate::specs::Rules::RunRounds::at_unnamed))]
fn execute_round(record: RecordNumber) -> MasterSlaveRound
    ensures { Sends result (at_unnamed execute_operation (record_in «record») []) }
{
    MasterSlaveRound {
        name: LogicalName::UNNAMED,
        number: FileNumber::CONFIGURATION,
        operation: Operation::EXECUTE,
        record,
        b0: 0,
        b1: 0,
        b2: 0,
        b3: 0,
    }
}

// The round at a step of a pass that writes no half.
fn other_round(step: u64, name: LogicalName) -> MasterSlaveRound
    requires { (step ≤ last_step) × (part_at (place_of step) ≡ reply) }
    ensures { (value : ℕ) → Sends result (sent (round_at (place_of step) (name_in_lem name) value)) }
{
    if step == POLL {
        return poll_round(name);
    }
    if step == GIVE_NAME {
        return write_round(RecordNumber::NAMES, 0, 0, name.0, LogicalName::UNNAMED.0);
    }
    if step == LAST_STEP {
        return execute_round(RecordNumber::NAMES);
    }
    execute_round(RecordNumber::COMPARISON_HIGH)
}

// The round at a position that stands there, for a name.
pub fn round_at(at: Standing, name: LogicalName) -> MasterSlaveRound
    ensures { Sends result (sent (round_at (place_of at.run.place.step) (name_in_lem name) at.run.place.value)) }
{
    if at.writing.part == HIGH {
        return half_round(RecordNumber::COMPARISON_HIGH, at.writing.value / HALF);
    }
    if at.writing.part == LOW {
        return half_round(RecordNumber::COMPARISON_LOW, at.writing.value % HALF);
    }
    other_round(at.run.place.step, name)
}

// Whether someone sent in slot 1.
pub fn reply_in(senders: u64) -> Reply
    ensures { heard result ≡ is_reply (done senders) }
{
    if (senders >> REPLY_SLOT) % 2 == 1 {
        return Reply::Heard;
    }
    Reply::Silence
}
