// The rows of all rounds, and the index of where they begin.
ghost use Rattle.std.specs.Prelude.{◌≡◌, ◌+◌, ◌≤◌, ◌<◌, replicate};
ghost use Rattle.file.specs.Rules.Decode.{decode};
ghost use Rattle.file.specs.Inner.Typed.{file_in, name_in_lem};
ghost use Rattle.file.specs.Inner.Accepted.{Placed};
ghost use Rattle.master_slave.specs.Rules.Bus.{slots};
ghost use Rattle.owner.specs.Rules.Plan.{rounds, is_owned};
ghost use Rattle.owner.specs.Rules.OwnerFile.{no_owner};
ghost use Rattle.owner.specs.Inner.Planned.{RowWritten, head_room, rows_room, index_byte, RowsWritten, RoundsWritten};

use crate::held::all_held;
use crate::masks::{NO_SLOTS, last_slot};
use crate::plan::Planner;
use file::layout::RECORD_SIZE;
use file::types::{FileNumber, LogicalName, SLAVES_ROOM, SlavePlaces};
use master_slave::slots::SLOTS;

// "the eight index bytes"
pub const ROUNDS: usize = 8;

// The two that are no multipartner rounds, MSD and MSA.
const DATA_ROUND: usize = 1;

const ADDRESS_ROUND: usize = 5;

// Record 0x00 and the index, records 1 and 2.
pub const HEAD_SIZE: usize = RECORD_SIZE + ROUNDS;

// "from record 3"
const FIRST_ROW_RECORD: usize = 3;

// Room for the rows: all slots of each round.
pub const ROWS_ROOM: usize = ROUNDS * SLOTS;

// "For each of rounds 0, 2, 3, 4, 6 and 7".
fn is_owned(round: usize) -> bool
    ensures { result ≡ is_owned round }
{
    round != DATA_ROUND && round != ADDRESS_ROUND
}

// What is written so far: how many bytes of rows, whether two slaves send in one slot, and whether a slave has a multiplexed send. No `Result`
// of the length: a multiplexed send in a later round is told before a clash in an earlier one, so all rounds are gone through.
#[derive(Clone, Copy)]
pub struct Rows {
    pub length: usize,
    pub clash: bool,
    pub multiplexed: bool,
}

// A round's index byte, by how many bytes the rows before it have. That of rounds 1 and 5 is 0x00.
fn index_byte(round: usize, start: usize) -> u8
    requires { start ≤ rows_room }
    ensures { result ≡ index_byte round start }
{
    if !is_owned(round) {
        return 0;
    }
    (FIRST_ROW_RECORD + start / RECORD_SIZE) as u8
}

impl Planner<'_> {
    // A round's row, padded, in front of zeros.
    fn write_row(&self, round: FileNumber, row: &mut [u8]) -> Rows
        requires { (file_in round < rounds) × (row.old ≡ replicate slots no_owner) }
        ensures { RowWritten (decode self.now.file.now).slaves (name_in_lem self.now.master) (file_in round) row.new result.length result.clash result.multiplexed }
    {
        let plan = self.plan_round(round, row);
        let last = last_slot(plan.senders);
        Rows {
            length: RECORD_SIZE * (last / RECORD_SIZE + 1),
            clash: plan.clashes != NO_SLOTS,
            multiplexed: plan.multiplexed,
        }
    }

    // One round's row more. Rounds 1 and 5 have none.
    fn write_round(&self, round: usize, before: Rows, rows: &mut [u8]) -> Rows
        requires { (round < rounds)
            × RowsWritten (decode self.now.file.now).slaves (name_in_lem self.now.master) round rows.old before.length before.clash before.multiplexed }
        ensures { RowsWritten (decode self.now.file.now).slaves (name_in_lem self.now.master) (round + 1) rows.new result.length result.clash result.multiplexed }
    {
        if !is_owned(round) {
            return before;
        }
        let start = before.length;
        let end = start + SLOTS;
        let row = self.write_row(FileNumber(round as u8), &mut rows[start..end]);
        Rows {
            length: start + row.length,
            clash: before.clash | row.clash,
            multiplexed: before.multiplexed | row.multiplexed,
        }
    }
}

// All rounds: the head and the rows of the owner file.
// Not written into its call: there the loop along a slave's entries, which is written into this function, keeps the file's place in memory, with
// four instructions more for each entry.
#[inline(never)]
pub fn write_rounds(
    file: &[u8],
    places: &SlavePlaces,
    master: LogicalName,
    head: &mut [u8],
    rows: &mut [u8],
) -> Rows
    requires { Placed file.now places.now × (head.old ≡ replicate head_room no_owner) × (rows.old ≡ replicate rows_room no_owner) }
    ensures { RoundsWritten (decode file.now).slaves (name_in_lem master) rounds head.new rows.new result.length result.clash result.multiplexed }
{
    let mut held = [0u8; SLAVES_ROOM];
    all_held(file, &mut held);
    let planner = Planner {
        file,
        places,
        master,
        held: &held,
    };
    let mut written = Rows {
        length: 0,
        clash: false,
        multiplexed: false,
    };
    for round in 0..ROUNDS {
        head[RECORD_SIZE + round] = index_byte(round, written.length);
        written = planner.write_round(round, written, rows);
    }
    written
}
