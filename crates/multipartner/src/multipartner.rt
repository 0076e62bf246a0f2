// Multipartner rounds: slots 1 to 63 over the slaves' round files.
ghost use Rattle.std.specs.Prelude.{◌≡◌, ◌+◌, ◌^◌, ◌≤◌, ◌<◌, length};
ghost use Rattle.file.specs.Rules.Layout.{record_size};
ghost use Rattle.file.specs.Rules.Decode.{decode};
ghost use Rattle.file.specs.Inner.Accepted.{Placed};
ghost use Rattle.master_slave.specs.Rules.Bus.{slots};
ghost use Rattle.master_slave.specs.Inner.Carried.{Carried};
ghost use Rattle.multipartner.specs.Rules.Entries.{entry_there, out_of_turn};
ghost use Rattle.multipartner.specs.Inner.Slots.{multipartner_effect, slots_effect, next_past, next_after};

use crate::entry::{acts_at, ends_at, is_last, waits_at};
use crate::kept_files::KeptFile;
use crate::round_files::{OpenEntries, round_files};
use crate::slot_act::{act_at, bus_with, heard_with};
use crate::stores::{put_store, store};
use file::layout::RECORD_SIZE;
use file::readers::{read_epoch, slave_count};
use file::types::{FileNumber, SLAVES_ROOM, SlavePlaces};
use master_slave::epoch::raise_epoch;
use master_slave::sleep::wake_slaves;
use master_slave::slots::{FIREWORK_SLOT, FIRST_SLOT, NOBODY, SILENT_BYTE, SLOTS, with_sender};

// Where the search of the next slot begins, with one more entry over: past it, if the search began there.
#[tactic(auto, unfolding(crate::specs::Inner::Slots::next_past))]
fn next_past(next: usize, at: usize) -> usize
    requires { at < 2 ^ 32 }
    ensures { result ≡ next_past next at }
{
    if next != at {
        return next;
    }
    at + RECORD_SIZE
}

// The same after a slot in which the entry acts: it is over if that slot is its last.
#[tactic(auto, unfolding(crate::specs::Inner::Slots::next_after))]
fn next_after(file: &[u8], next: usize, at: usize, slot: usize) -> usize
    requires { (at < 2 ^ 32) × (at + record_size ≤ length file.now) × ((entry_there file.now at).start ≤ slot) }
    ensures { result ≡ next_after (entry_there file.now at) next at slot }
{
    if !is_last(file, at, slot) {
        return next;
    }
    next_past(next, at)
}

// Slots 1 to 63 of a multipartner round. Where each slave's entries lie is found once, before the first slot: no receive stores
// in a round file or in 0x08. From slot to slot `lists` leaves out the entries in front that cannot act again: those that cover no
// later slot, and multiplexed ones out of turn, which go by the round's epoch.
fn run_slots(
    file: &mut [u8],
    places: &SlavePlaces,
    round: u8,
    epoch: u8,
    firework: u8,
    buffer: &mut [u8],
) -> u64
    requires { Placed file.old places.now × (round < 0x10) × (slots ≤ length buffer.old) }
    ensures { Carried (slots_effect (out_of_turn epoch) (decode file.old) round) firework buffer.old buffer.new result file.new }
{
    let count = slave_count(file);
    let mut lists = [OpenEntries::NONE; SLAVES_ROOM];
    round_files(file, places, FileNumber(round), &mut lists);
    let mut kept = [KeptFile::NONE; SLAVES_ROOM];
    let mut stores = [0u32; SLAVES_ROOM];
    let mut mask = NOBODY;
    buffer[FIREWORK_SLOT] = firework;
    'slots: for slot in FIRST_SLOT..SLOTS {
        let mut bus = SILENT_BYTE;
        let mut heard = false;
        let mut stored = 0;
        'slaves: for slave in 0..count {
            let end = lists[slave].end as usize;
            let mut at = lists[slave].start as usize;
            let mut next = at;
            // Not `for at in (at..end).step_by(RECORD_SIZE)`, which is slower: a round of 32 slaves of 220 entries each took 261,205
            // instructions by it, and takes 244,309.
            'entries: while at < end {
                if ends_at(file, at) {
                    break 'entries;
                }
                if !waits_at(file, at, slot) {
                    if acts_at(file, at, slot, epoch) {
                        let act = act_at(file, slave, at, slot, &mut kept);
                        bus = bus_with(bus, act);
                        heard = heard_with(heard, act);
                        stored = put_store(&mut stores, stored, act);
                        next = next_after(file, next, at, slot);
                        break 'entries;
                    }
                    next = next_past(next, at);
                }
                at = at + RECORD_SIZE;
            }
            lists[slave].start = next as u32;
        }
        if heard {
            mask = with_sender(mask, slot as u64);
            store(file, &stores[..stored], bus);
        }
        buffer[slot] = bus;
    }
    mask
}

// One multipartner frame: the round of that number, after which everyone is awake. The mask of the slots in which someone sent.
pub fn carry_multipartner(
    file: &mut [u8],
    places: &SlavePlaces,
    round: u8,
    firework: u8,
    buffer: &mut [u8],
) -> u64
    requires { Placed file.old places.now × (round < 0x10) × (slots ≤ length buffer.old) }
    ensures { Carried (multipartner_effect (decode file.old) round) firework buffer.old buffer.new result file.new }
{
    raise_epoch(file);
    let epoch = read_epoch(file);
    let mask = run_slots(file, places, round, epoch, firework, buffer);
    wake_slaves(file);
    mask
}
