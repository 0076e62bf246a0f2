// One round's plan: which slaves send in which slots.
ghost use Rattle.std.specs.Prelude.{◌≡◌, ◌<◌, length, replicate};
ghost use Rattle.file.specs.Rules.Decode.{decode};
ghost use Rattle.file.specs.Inner.Places.{slave_of};
ghost use Rattle.file.specs.Inner.Typed.{file_in, name_in_lem};
ghost use Rattle.file.specs.Inner.Accepted.{slave_count};
ghost use Rattle.master_slave.specs.Rules.Bus.{slots};
ghost use Rattle.owner.specs.Rules.Plan.{rounds};
ghost use Rattle.owner.specs.Rules.OwnerFile.{no_owner};
ghost use Rattle.owner.specs.Inner.Held.{PlannedFrom};
ghost use Rattle.owner.specs.Inner.Planned.{SlavePlanned, OwnerPut, SlaveAdded, RoundPlanned};

use crate::entries::{SlavePlan, is_end, is_single, with_slot, with_slots};
use crate::masks::{ALL_SLOTS, FIREWORK_SLOTS, NO_SLOTS};
use file::layout::RECORD_SIZE;
use file::readers::{logical_name, slave_count};
use file::types::{FileNumber, LogicalName, SlavePlaces};
use master_slave::slots::FIREWORK_SLOT;
use multipartner::entry::{KIND_PLACE, NO_FILE};
use multipartner::round_files::planned_file;

// A name put into a row at every slot of a mask: a turn for each bit that is set, where a `for` over the slots has 64.
fn put_name(row: &mut [u8], mask: u64, name: LogicalName)
    requires { length row.old ≡ slots }
    ensures { OwnerPut row.old row.new mask (name_in_lem name) }
{
    let mut rest = mask;
    while rest != NO_SLOTS {
        let slot = u64::trailing_zeros(rest) as usize;
        row[slot] = name.0;
        rest = rest & (rest - 1);
    }
}

// The slots of a round in which someone sends, those in which two slaves do, and whether a slave has a multiplexed send.
#[derive(Clone, Copy)]
pub struct RoundPlan {
    pub senders: u64,
    pub clashes: u64,
    pub multiplexed: bool,
}

// What the rounds of a file are planned by: the file with the places of its slaves, the name of the master, and which slaves have a file for
// which round.
#[derive(Clone, Copy)]
pub struct Planner<'a> {
    pub file: &'a [u8],
    pub places: &'a SlavePlaces,
    pub master: LogicalName,
    pub held: &'a [u8],
    ghost known: { PlannedFrom file.now places.now held.now },
}

impl Planner<'_> {
    // Its entries are read once, first to last: a slot that an earlier one covers is hidden from a later one, so the entry that finds its
    // slot free is the one that acts there. An entry that is passed over hides no slot. A `while`: `step_by` compares twice for each entry, with
    // four instructions more.
    fn plan_slave(&self, slave: usize, round: FileNumber) -> SlavePlan
        requires { slave < slave_count self.now.file.now }
        ensures { SlavePlanned (file_in round) (slave_of (decode self.now.file.now) slave) result.sends result.multiplexed }
    {
        let file = self.file;
        let found = planned_file(file, self.places, slave, round);
        let end = found.end;
        let mut plan = SlavePlan {
            hidden: FIREWORK_SLOTS,
            sends: NO_SLOTS,
            multiplexed: false,
            number: FileNumber(NO_FILE),
            size: 0,
        };
        let mut at = found.start;
        while at < end {
            let kind = file[at + KIND_PLACE];
            if is_single(kind) {
                plan = with_slot(file, slave, at, plan);
            } else {
                if is_end(kind) {
                    return plan;
                }
                plan = with_slots(file, slave, at, plan);
            }
            at = at + RECORD_SIZE;
        }
        plan
    }

    // One slave more. Its name is put where it sends and none before it does.
    fn add_slave(
        &self,
        slave: usize,
        round: FileNumber,
        before: RoundPlan,
        row: &mut [u8],
    ) -> RoundPlan
        requires { (slave < slave_count self.now.file.now) × (length row.old ≡ slots) }
        ensures { SlaveAdded (decode self.now.file.now).slaves (file_in round) slave row.old before.senders before.clashes before.multiplexed row.new result.senders result.clashes result.multiplexed }
    {
        let plan = self.plan_slave(slave, round);
        let sends = plan.sends;
        let name = logical_name(self.file, self.places, slave);
        put_name(row, sends & (before.senders ^ ALL_SLOTS), name);
        RoundPlan {
            senders: before.senders | sends,
            clashes: before.clashes | (before.senders & sends),
            multiplexed: before.multiplexed | plan.multiplexed,
        }
    }

    // A round's owners put into a row of zeros. A slave without a file for the round sends nothing.
    pub fn plan_round(&self, round: FileNumber, row: &mut [u8]) -> RoundPlan
        requires { (file_in round < rounds) × (row.old ≡ replicate slots no_owner) }
        ensures { RoundPlanned (decode self.now.file.now).slaves (name_in_lem self.now.master) (file_in round) row.new result.senders result.clashes result.multiplexed }
    {
        let count = slave_count(self.file);
        let mut plan = RoundPlan {
            senders: NO_SLOTS,
            clashes: NO_SLOTS,
            multiplexed: false,
        };
        row[FIREWORK_SLOT] = self.master.0;
        for slave in 0..count {
            if (self.held[slave] >> round.0) % 2 == 1 {
                plan = self.add_slave(slave, round, plan, row);
            }
        }
        plan
    }
}
