// The data part of a master-slave round, and its address and then its data, on a file that is known to be accepted.
ghost use Rattle.std.specs.Prelude.{◌≤◌, length};
ghost use Rattle.file.specs.Rules.Decode.{decode};
ghost use Rattle.file.specs.Rules.Legal.{LegalPending};
ghost use Rattle.file.specs.Inner.Accepted.{Placed};
ghost use Rattle.frame.specs.Rules.Fireworks.{data_firework};
ghost use Rattle.master_slave.specs.Rules.Bus.{slots};
ghost use Rattle.master_slave.specs.Inner.Duties.{data_effect, after_address, round_data, data_in};
ghost use Rattle.master_slave.specs.Inner.Carried.{Carried};

use crate::duty::do_duty;
use crate::epoch::raise_epoch;
use crate::pending::{become_pending, pending_duty};
use crate::sleep::rest_slaves;
use crate::types::{DataBytes, MasterSlaveRound};
use file::types::SlavePlaces;

// The data part of a round: what is pending is settled, the epoch raised, the slaves do their duty, and fall asleep or wake. The mask
// of the slots in which someone sent.
pub fn carry_data(file: &mut [u8], places: &SlavePlaces, bytes: DataBytes, buffer: &mut [u8]) -> u64
    requires { Placed file.old places.now × (slots ≤ length buffer.old) }
    ensures { Carried (data_effect (decode file.old) (data_in bytes)) data_firework buffer.old buffer.new result file.new }
{
    let pending = pending_duty(file);
    let duty = pending.duty;
    let address = pending.address;
    raise_epoch(file);
    let mask = do_duty(file, places, duty, address, bytes, buffer);
    rest_slaves(file, places, duty, address);
    mask
}

// The operation becomes pending and is carried out. The mask of the data part.
#[tactic(auto, using(crate::proofs::AddressLaws::rounds), unfolding(crate::specs::Inner::Duties::after_address))]
pub fn master_slave(
    file: &mut [u8],
    places: &SlavePlaces,
    epoch: u8,
    round: MasterSlaveRound,
    buffer: &mut [u8],
) -> u64
    requires { Placed file.old places.now × LegalPending (after_address (decode file.old) epoch round) × (slots ≤ length buffer.old) }
    ensures { Carried (data_effect (after_address (decode file.old) epoch round) (round_data round)) data_firework buffer.old buffer.new result file.new }
{
    become_pending(
        file,
        epoch,
        round.name,
        round.number,
        round.operation,
        round.record,
    );
    let bytes = DataBytes {
        b0: round.b0,
        b1: round.b1,
        b2: round.b2,
        b3: round.b3,
    };
    carry_data(file, places, bytes, buffer)
}
