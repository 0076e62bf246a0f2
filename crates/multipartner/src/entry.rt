// A round file's entries, the round descriptor list of 002.
ghost use Rattle.std.specs.Prelude.{◌≡◌, ◌+◌, ◌-◌, ◌/◌, ◌≤◌, ◌<◌, length, eqb, ltb};
ghost use Rattle.file.specs.Rules.Layout.{record_size};
ghost use Rattle.multipartner.specs.Rules.Entries.{entry_of, entry_there, ends, in_turn, out_of_turn, eligible, byte_place};
ghost use Rattle.multipartner.specs.Inner.EntryForm.{operation_codes, OperationIs, code_of, entry_from, evaluated, Reaches, action_by, action_from};

use file::layout::RECORD_SIZE;
use file::types::{FileNumber, RecordNumber};

// What an entry does, one case for each operation code of 002, table 4. Only the multiplexed ones evaluate their multiplex field.
#[derive(Clone, Copy)]
pub enum EntryOperation {
    Receive,
    Send,
    ReceiveSync,
    Execute,
    ReceiveSpeedup,
    SendSpeedup,
    EndOfRound,
    ExecuteAndEnd,
    ReceiveMux4(u8),
    SendMux4(u8),
    ReceiveMux8(u8),
    SendMux8(u8),
    ReceiveSpeedupMux4(u8),
    SendSpeedupMux4(u8),
    ReceiveMux8High(u8),
    SendMux8High(u8),
}

// Where an entry's first byte lies: in a record, align bytes after its start.
#[derive(Clone, Copy)]
pub struct EntryAddress {
    pub file: FileNumber,
    pub record: RecordNumber,
    pub align: usize,
}

#[derive(Clone, Copy)]
pub struct Entry {
    pub address: EntryAddress,
    pub operation: EntryOperation,
    // The slots that it covers, and the first of them.
    pub length: usize,
    pub slot: usize,
}

// The codes of 002, table 4. They stay numbers beside the enum: the searches here and those of owner test the kind's byte, once for each entry,
// and make no operation of it.
const RECEIVE: u8 = 0;

pub const SEND: u8 = 1;

const RECEIVE_SYNC: u8 = 2;

const EXECUTE: u8 = 3;

const RECEIVE_SPEEDUP: u8 = 4;

pub const SEND_SPEEDUP: u8 = 5;

pub const END_OF_ROUND: u8 = 6;

pub const EXECUTE_AND_END: u8 = 7;

const RECEIVE_MUX_4: u8 = 8;

const SEND_MUX_4: u8 = 9;

const RECEIVE_MUX_8: u8 = 10;

const SEND_MUX_8: u8 = 11;

const RECEIVE_SPEEDUP_MUX_4: u8 = 12;

const SEND_SPEEDUP_MUX_4: u8 = 13;

const RECEIVE_MUX_8_HIGH: u8 = 14;

// The codes from this one on are multiplexed.
pub const FIRST_MULTIPLEXED: u8 = RECEIVE_MUX_4;

// The one code that is left is 15, SendMux8High.
#[tactic(auto, unfolding(crate::specs::Inner::EntryForm::code_of, crate::specs::Inner::EntryForm::multiplex_of, crate::specs::Inner::EntryForm::multiplex_in))]
fn entry_operation(code: u8, multiplex: u8) -> EntryOperation
    requires { code < operation_codes }
    ensures { OperationIs result code multiplex }
{
    match code {
        RECEIVE => EntryOperation::Receive,
        SEND => EntryOperation::Send,
        RECEIVE_SYNC => EntryOperation::ReceiveSync,
        EXECUTE => EntryOperation::Execute,
        RECEIVE_SPEEDUP => EntryOperation::ReceiveSpeedup,
        SEND_SPEEDUP => EntryOperation::SendSpeedup,
        END_OF_ROUND => EntryOperation::EndOfRound,
        EXECUTE_AND_END => EntryOperation::ExecuteAndEnd,
        RECEIVE_MUX_4 => EntryOperation::ReceiveMux4(multiplex),
        SEND_MUX_4 => EntryOperation::SendMux4(multiplex),
        RECEIVE_MUX_8 => EntryOperation::ReceiveMux8(multiplex),
        SEND_MUX_8 => EntryOperation::SendMux8(multiplex),
        RECEIVE_SPEEDUP_MUX_4 => EntryOperation::ReceiveSpeedupMux4(multiplex),
        SEND_SPEEDUP_MUX_4 => EntryOperation::SendSpeedupMux4(multiplex),
        RECEIVE_MUX_8_HIGH => EntryOperation::ReceiveMux8High(multiplex),
        _ => EntryOperation::SendMux8High(multiplex),
    }
}

// Where an entry has its bytes: after that of file number and align the record; the kind, which is the operation above the length less
// one; and the start, which is the multiplex field above the first slot.
pub const RECORD_PLACE: usize = 1;

pub const KIND_PLACE: usize = 2;

pub const START_PLACE: usize = 3;

// How many values the low bits of its bytes 0, 2 and 3 have.
pub const ALIGN_VALUES: u8 = 4;

pub const LENGTH_VALUES: u8 = 16;

pub const START_VALUES: u8 = 64;

// No file has this number: that of the file named last, where no entry has named one yet.
pub const NO_FILE: u8 = 0xFF;

// The entry of a record's four bytes. Not of an array: a contract would have to name each byte by its index, as the one caller does.
#[tactic(auto, unfolding(crate::specs::Inner::EntryForm::entry_from, crate::specs::Rules::Entries::entry_of, crate::specs::Inner::EntryForm::evaluated))]
pub fn entry_of(b0: u8, b1: u8, b2: u8, b3: u8) -> Entry
    ensures { entry_from result ≡ evaluated (entry_of b0 b1 b2 b3) }
{
    Entry {
        address: EntryAddress {
            file: FileNumber(b0 / ALIGN_VALUES),
            record: RecordNumber(b1),
            align: (b0 % ALIGN_VALUES) as usize,
        },
        operation: entry_operation(b2 / LENGTH_VALUES, b3 / START_VALUES),
        length: (b2 % LENGTH_VALUES) as usize + 1,
        slot: (b3 % START_VALUES) as usize,
    }
}

// The entry at a place of the file.
#[tactic(auto, unfolding(crate::specs::Rules::Entries::entry_there))]
pub fn entry_at(file: &[u8], at: usize) -> Entry
    requires { at + record_size ≤ length file.now }
    ensures { entry_from result ≡ evaluated (entry_there file.now at) }
{
    entry_of(
        file[at],
        file[at + RECORD_PLACE],
        file[at + KIND_PLACE],
        file[at + START_PLACE],
    )
}

// What a slave does for an entry in a slot that it covers.
#[derive(Clone, Copy)]
pub enum EntryAction {
    Receives,
    Sends,
    // The entry and those after it cover no slot.
    Ends,
    Rests,
}

// One arm for each code, as in the table: patterns joined by `|` stand in as many lines.
#[tactic(auto, unfolding(crate::specs::Inner::EntryForm::code_of, crate::specs::Inner::EntryForm::action_by, crate::specs::Inner::EntryForm::action_from, crate::specs::Rules::Entries::is_multiplexed, crate::specs::Rules::Entries::receives, crate::specs::Rules::Entries::sends, crate::specs::Rules::Entries::ends, file::specs::Rules::Order::both, file::specs::Rules::Order::either))]
pub fn action_of(operation: EntryOperation) -> EntryAction
    ensures { action_from result ≡ action_by (code_of operation) }
{
    match operation {
        EntryOperation::Receive => EntryAction::Receives,
        EntryOperation::Send => EntryAction::Sends,
        EntryOperation::ReceiveSync => EntryAction::Receives,
        EntryOperation::Execute => EntryAction::Rests,
        EntryOperation::ReceiveSpeedup => EntryAction::Receives,
        EntryOperation::SendSpeedup => EntryAction::Sends,
        EntryOperation::EndOfRound => EntryAction::Ends,
        EntryOperation::ExecuteAndEnd => EntryAction::Ends,
        EntryOperation::ReceiveMux4(_) => EntryAction::Receives,
        EntryOperation::SendMux4(_) => EntryAction::Sends,
        EntryOperation::ReceiveMux8(_) => EntryAction::Receives,
        EntryOperation::SendMux8(_) => EntryAction::Sends,
        EntryOperation::ReceiveSpeedupMux4(_) => EntryAction::Receives,
        EntryOperation::SendSpeedupMux4(_) => EntryAction::Sends,
        EntryOperation::ReceiveMux8High(_) => EntryAction::Receives,
        EntryOperation::SendMux8High(_) => EntryAction::Sends,
    }
}

// Of every entry that a round comes to it asks only what kind and start tell, where they lie.
const FIRST_END_KIND: u8 = END_OF_ROUND * LENGTH_VALUES;

const FIRST_MULTIPLEXED_KIND: u8 = FIRST_MULTIPLEXED * LENGTH_VALUES;

// Whether the entry at a place ends the round.
#[tactic(auto, unfolding(crate::specs::Rules::Entries::entry_there, crate::specs::Rules::Entries::entry_of, crate::specs::Rules::Entries::ends, file::specs::Rules::Order::either))]
pub fn ends_at(file: &[u8], at: usize) -> bool
    requires { at + record_size ≤ length file.now }
    ensures { result ≡ ends (entry_there file.now at).operation }
{
    let kind = file[at + KIND_PLACE];
    if kind < FIRST_END_KIND {
        return false;
    }
    kind < FIRST_MULTIPLEXED_KIND
}

// Whether its first slot is yet to come.
#[tactic(auto, unfolding(crate::specs::Rules::Entries::entry_there, crate::specs::Rules::Entries::entry_of))]
pub fn waits_at(file: &[u8], at: usize, slot: usize) -> bool
    requires { at + record_size ≤ length file.now }
    ensures { result ≡ ltb slot (entry_there file.now at).start }
{
    let start = file[at + START_PLACE];
    slot < (start % START_VALUES) as usize
}

// A multiplexed operation's field is the epoch modulo 4. Of each four codes the upper two go by the epoch modulo 8, in whose
// second half the codes of the upper four are in turn.
const TURNS: u8 = 4;

const BY_EIGHT: u8 = 2 * LENGTH_VALUES;

const SECOND_HALF: u8 = 4 * LENGTH_VALUES;

// Whether an entry of that kind and start is in turn in a round of that epoch. Those that are not multiplexed always are.
fn is_in_turn(kind: u8, start: u8, epoch: u8) -> bool
    ensures { result ≡ in_turn epoch (kind / 16) (start / 64) }
{
    if kind < FIRST_MULTIPLEXED_KIND {
        return true;
    }
    if start / START_VALUES != epoch % TURNS {
        return false;
    }
    if kind / BY_EIGHT % 2 == 0 {
        return true;
    }
    epoch / TURNS % 2 == kind / SECOND_HALF % 2
}

// Whether the entry at a place acts in a slot if none before it does: it covers the slot and is in turn.
#[tactic(auto, unfolding(crate::specs::Rules::Entries::entry_there, crate::specs::Rules::Entries::entry_of, crate::specs::Rules::Entries::eligible, crate::specs::Rules::Entries::covers, crate::specs::Rules::Entries::out_of_turn, file::specs::Rules::Order::both))]
pub fn acts_at(file: &[u8], at: usize, slot: usize, epoch: u8) -> bool
    requires { at + record_size ≤ length file.now }
    ensures { result ≡ eligible (out_of_turn epoch) (entry_there file.now at) slot }
{
    let kind = file[at + KIND_PLACE];
    let start = file[at + START_PLACE];
    let first = (start % START_VALUES) as usize;
    if slot < first {
        return false;
    }
    if ((kind % LENGTH_VALUES) as usize) < slot - first {
        return false;
    }
    is_in_turn(kind, start, epoch)
}

// Whether a slot is its last, for an entry that has begun.
#[tactic(auto, unfolding(crate::specs::Rules::Entries::entry_there, crate::specs::Rules::Entries::entry_of))]
pub fn is_last(file: &[u8], at: usize, slot: usize) -> bool
    requires { (at + record_size ≤ length file.now) × ((entry_there file.now at).start ≤ slot) }
    ensures { result ≡ eqb (slot - (entry_there file.now at).start + 1) (entry_there file.now at).length }
{
    let kind = file[at + KIND_PLACE];
    let start = file[at + START_PLACE];
    slot - (start % START_VALUES) as usize == (kind % LENGTH_VALUES) as usize
}

// The byte of the entry's file that a slot is about.
#[tactic(auto, unfolding(crate::specs::Rules::Entries::byte_place, crate::specs::Inner::EntryForm::entry_from))]
pub fn byte_place(entry: Entry, slot: usize) -> usize
    requires { Reaches entry slot }
    ensures { result ≡ byte_place (entry_from entry) slot }
{
    let record = entry.address.record.0 as usize;
    RECORD_SIZE * record + entry.address.align + (slot - entry.slot)
}
