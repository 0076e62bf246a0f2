// What an entry of a round file adds to the plan of its slave, by the entry's four bytes.
ghost use Rattle.std.specs.Prelude.{◌≡◌, true, ◌+◌, ◌/◌, ◌≤◌, ◌<◌, length};
ghost use Rattle.file.specs.Rules.Layout.{record_size};
ghost use Rattle.file.specs.Rules.Cluster.{bytes_in};
ghost use Rattle.file.specs.Rules.Decode.{decode};
ghost use Rattle.file.specs.Inner.Places.{slave_of};
ghost use Rattle.file.specs.Inner.Typed.{file_in};
ghost use Rattle.file.specs.Inner.Accepted.{AcceptedFile, slave_count};
ghost use Rattle.multipartner.specs.Rules.Entries.{entry_there, ends, sends, byte_place};
ghost use Rattle.multipartner.specs.Inner.EntryForm.{first_multiplexed, file_numbers};
ghost use Rattle.owner.specs.Inner.Masks.{Marks, longest_entry};
ghost use Rattle.owner.specs.Inner.OwnerEntries.{kind_at, is_single, Kept, would_send, EntryOf, EntryTaken};

use crate::masks::{ALL_SLOTS, NO_SLOTS, slots_from};
use file::layout::RECORD_SIZE;
use file::numbers::byte_at;
use file::records::find_file;
use file::types::FileNumber;
use multipartner::entry::{
    ALIGN_VALUES, END_OF_ROUND, EXECUTE_AND_END, FIRST_MULTIPLEXED, KIND_PLACE, LENGTH_VALUES,
    RECORD_PLACE, SEND, SEND_SPEEDUP, START_PLACE, START_VALUES,
};

// The slots that a slave's entries hide from later ones, those in which it sends, whether it has a multiplexed send, and the file that
// was looked for last, with its size. No `Option` of the two: a number that no file has says that there was none, so that each send compares
// numbers alone.
#[derive(Clone, Copy)]
pub struct SlavePlan {
    pub hidden: u64,
    pub sends: u64,
    pub multiplexed: bool,
    pub number: FileNumber,
    pub size: usize,
}

// By byte 2: one slot, neither multiplexed nor an end. The byte's halves exchanged, one comparison tells.
pub fn is_single(kind: u8) -> bool
    ensures { result ≡ is_single kind }
{
    kind % LENGTH_VALUES * LENGTH_VALUES + kind / LENGTH_VALUES < END_OF_ROUND
}

pub fn is_end(kind: u8) -> bool
    ensures { result ≡ ends (kind / longest_entry) }
{
    let operation = kind / LENGTH_VALUES;
    operation == END_OF_ROUND || operation == EXECUTE_AND_END
}

// Of the operations that are not multiplexed.
fn is_plain_send(operation: u8) -> bool
    requires { operation < first_multiplexed }
    ensures { result ≡ sends operation }
{
    operation == SEND || operation == SEND_SPEEDUP
}

fn is_send(operation: u8) -> bool
    ensures { result ≡ sends operation }
{
    if FIRST_MULTIPLEXED <= operation {
        return operation % 2 == 1;
    }
    is_plain_send(operation)
}

// How many bytes a slave's file has, 0 where there is none.
fn file_size(file: &[u8], slave: usize, number: FileNumber) -> usize
    requires { AcceptedFile file.now × (slave < slave_count file.now) }
    ensures { result ≡ length (bytes_in (slave_of (decode file.now) slave) (file_in number)) }
{
    let found = find_file(file, slave, number);
    match found {
        Some(bytes) => bytes.size,
        None => 0,
    }
}

// The same: the size of the file that was looked for last is known.
fn known_size(file: &[u8], slave: usize, number: FileNumber, plan: SlavePlan) -> usize
    requires { AcceptedFile file.now × (slave < slave_count file.now) × (file_in number < file_numbers) × Kept (slave_of (decode file.now) slave) (file_in plan.number) plan.size }
    ensures { result ≡ length (bytes_in (slave_of (decode file.now) slave) (file_in number)) }
{
    if plan.number == number {
        return plan.size;
    }
    file_size(file, slave, number)
}

// The byte of its file that an entry's first slot is about.
fn first_byte(file: &[u8], at: usize) -> usize
    requires { at + record_size ≤ length file.now }
    ensures { result ≡ byte_place (entry_there file.now at) (entry_there file.now at).start }
{
    let record = byte_at(file, at + RECORD_PLACE);
    let align = byte_at(file, at) % (ALIGN_VALUES as usize);
    RECORD_SIZE * record + align
}

// An entry of one slot, neither multiplexed nor an end, as most are. Where its slot is hidden, nothing more is read of it.
pub fn with_slot(file: &[u8], slave: usize, at: usize, plan: SlavePlan) -> SlavePlan
    requires { EntryOf file.now slave at (file_in plan.number) plan.size × (is_single (kind_at file.now at) ≡ true) }
    ensures { EntryTaken (slave_of (decode file.now) slave) (entry_there file.now at) plan.hidden plan.sends plan.multiplexed result.hidden result.sends result.multiplexed (file_in result.number) result.size }
{
    let start = (file[at + START_PLACE] % START_VALUES) as u64;
    if (plan.hidden >> start) % 2 == 1 {
        return plan;
    }
    let slot = 1u64 << start;
    let mut next = plan;
    next.hidden = plan.hidden | slot;
    if !is_plain_send(file[at + KIND_PLACE] / LENGTH_VALUES) {
        return next;
    }
    let number = FileNumber(file[at] / ALIGN_VALUES);
    let size = known_size(file, slave, number, plan);
    next.number = number;
    next.size = size;
    if size <= first_byte(file, at) {
        return next;
    }
    next.sends = plan.sends | slot;
    next
}

// The slots in which a send would send a byte, if it acted there: as far as its file has bytes for them.
fn sending_slots(file: &[u8], slave: usize, at: usize) -> u64
    requires { AcceptedFile file.now × (slave < slave_count file.now) × (at + record_size ≤ length file.now) × (sends (entry_there file.now at).operation ≡ true) }
    ensures { Marks result (would_send (slave_of (decode file.now) slave) (entry_there file.now at)) }
{
    let start = (file[at + START_PLACE] % START_VALUES) as usize;
    let length = (file[at + KIND_PLACE] % LENGTH_VALUES) as usize + 1;
    let size = file_size(file, slave, FileNumber(file[at] / ALIGN_VALUES));
    let first = first_byte(file, at);
    if size <= first {
        return NO_SLOTS;
    }
    if size - first < length {
        return slots_from(start, size - first);
    }
    slots_from(start, length)
}

// Any other entry. A multiplexed receive is passed over.
pub fn with_slots(file: &[u8], slave: usize, at: usize, plan: SlavePlan) -> SlavePlan
    requires { EntryOf file.now slave at (file_in plan.number) plan.size }
    ensures { EntryTaken (slave_of (decode file.now) slave) (entry_there file.now at) plan.hidden plan.sends plan.multiplexed result.hidden result.sends result.multiplexed (file_in result.number) result.size }
{
    let kind = file[at + KIND_PLACE];
    let operation = kind / LENGTH_VALUES;
    let multiplexed = FIRST_MULTIPLEXED <= operation;
    let start = (file[at + START_PLACE] % START_VALUES) as usize;
    let slots = slots_from(start, (kind % LENGTH_VALUES) as usize + 1);
    let hidden = plan.hidden | slots;
    let mut next = plan;
    if is_send(operation) {
        let sending = sending_slots(file, slave, at);
        next.hidden = hidden;
        next.sends = plan.sends | (sending & (plan.hidden ^ ALL_SLOTS));
        next.multiplexed = plan.multiplexed | multiplexed;
        return next;
    }
    if multiplexed {
        return plan;
    }
    next.hidden = hidden;
    next
}
