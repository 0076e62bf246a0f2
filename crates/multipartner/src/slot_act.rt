// What a slave does in a slot: it sends a byte, stores the slot's byte, or rests.
ghost use Rattle.std.specs.Prelude.{◌≡◌, ◌+◌, ◌^◌, ◌≤◌, ◌<◌, length};
ghost use Rattle.file.specs.Rules.Order.{either};
ghost use Rattle.file.specs.Rules.Layout.{record_size};
ghost use Rattle.file.specs.Inner.Accepted.{AcceptedFile, slave_count};
ghost use Rattle.master_slave.specs.Rules.Bus.{slots, joined};
ghost use Rattle.multipartner.specs.Rules.Entries.{entry_there};
ghost use Rattle.multipartner.specs.Rules.Multipartner.{may_store};
ghost use Rattle.multipartner.specs.Inner.EntryForm.{entry_from, Reaches};
ghost use Rattle.multipartner.specs.Inner.Slots.{FilesKept, EntryActIs, ActedAt, act_sends, is_sender};

use crate::entry::{Entry, EntryAction, action_of, byte_place, entry_at};
use crate::kept_files::{KeptFile, keep_file};
use file::layout::RECORD_SIZE;
use file::types::{FileNumber, SLAVES_ROOM};

// "a receive stores only in files 0x10 to 0x3C, outside record 0x00".
const FIRST_STORED: FileNumber = FileNumber(0x10);

const LAST_STORED: FileNumber = FileNumber(0x3C);

#[tactic(auto, unfolding(crate::specs::Rules::Multipartner::may_store, crate::specs::Inner::EntryForm::entry_from, file::specs::Rules::Order::both))]
fn may_store(entry: Entry, slot: usize) -> bool
    requires { Reaches entry slot }
    ensures { result ≡ may_store (entry_from entry) slot }
{
    if entry.address.file < FIRST_STORED {
        return false;
    }
    if LAST_STORED < entry.address.file {
        return false;
    }
    RECORD_SIZE <= byte_place(entry, slot)
}

// What a slave does in a slot: it sends a byte, stores the slot's byte at a place of the file, or neither.
#[derive(Clone, Copy)]
pub enum SlotAct {
    Sends(u8),
    Stores(usize),
    Rests,
}

// What an entry that covers a slot makes its slave do, by where its file lies and how many bytes that has.
fn slot_act(file: &[u8], entry: Entry, slot: usize, place: usize, size: usize) -> SlotAct
    requires { Reaches entry slot × (place + size ≤ length file.now) × (length file.now < 2 ^ 32) }
    ensures { EntryActIs file.now (entry_from entry) slot place size result }
{
    let byte = byte_place(entry, slot);
    let operation = entry.operation;
    let action = action_of(operation);
    match action {
        EntryAction::Receives => {
            if size <= byte {
                return SlotAct::Rests;
            }
            if !may_store(entry, slot) {
                return SlotAct::Rests;
            }
            SlotAct::Stores(place + byte)
        }
        EntryAction::Sends => {
            if size <= byte {
                return SlotAct::Rests;
            }
            SlotAct::Sends(file[place + byte])
        }
        EntryAction::Ends => SlotAct::Rests,
        EntryAction::Rests => SlotAct::Rests,
    }
}

// What the entry at a place makes its slave do.
pub fn act_at(
    file: &[u8],
    slave: usize,
    at: usize,
    slot: usize,
    kept: &mut [KeptFile; SLAVES_ROOM],
) -> SlotAct
    requires { AcceptedFile file.now × (slave < slave_count file.now) × (at + record_size ≤ length file.now) × ((entry_there file.now at).start ≤ slot) × (slot < slots) × FilesKept file.now kept.old }
    ensures { ActedAt file.now slave at slot result kept.new }
{
    let entry = entry_at(file, at);
    keep_file(file, slave, entry.address.file, kept);
    slot_act(
        file,
        entry,
        slot,
        kept[slave].place as usize,
        kept[slave].size as usize,
    )
}

// The bus byte with what a slave sends.
#[tactic(auto, unfolding(crate::specs::Inner::Slots::act_sends, master_slave::specs::Rules::Bus::joined))]
pub fn bus_with(bus: u8, act: SlotAct) -> u8
    ensures { result ≡ joined bus (act_sends act) }
{
    match act {
        SlotAct::Sends(byte) => bus & byte,
        SlotAct::Stores(_) => bus,
        SlotAct::Rests => bus,
    }
}

// Whether someone sent, with what a slave does.
#[tactic(auto, unfolding(crate::specs::Inner::Slots::is_sender, file::specs::Rules::Order::either))]
pub fn heard_with(heard: bool, act: SlotAct) -> bool
    ensures { result ≡ either heard (is_sender act) }
{
    match act {
        SlotAct::Sends(_) => true,
        SlotAct::Stores(_) => heard,
        SlotAct::Rests => heard,
    }
}
