// Who is asleep and who is awake after a round, in a file that is known to be accepted.
ghost use Rattle.std.specs.Prelude.{◌≡◌};
ghost use Rattle.file.specs.Inner.Typed.{name_in_lem};
ghost use Rattle.file.specs.Rules.Decode.{decode};
ghost use Rattle.file.specs.Inner.Accepted.{AcceptedFile, Becomes, Placed};
ghost use Rattle.master_slave.specs.Rules.Slaves.{nothing, sleeping, rested};
ghost use Rattle.master_slave.specs.Inner.Duties.{duty_at, puts_to_sleep, leaves_slaves};

use crate::pending::Duty;
use crate::slaves::sleep_slave;
use crate::types::RecordAddress;
use file::layout::AWAKE;
use file::readers::slave_count;
use file::types::{LogicalName, SlavePlaces};
use file::writers::set_sleep;

// After any other round than a sleep everyone is awake. The loop stands here and in `sleep_round`, as in `duty`'s rounds.
#[tactic(auto, using(crate::proofs::Changing::changes, crate::proofs::Kept::rests_kept, crate::proofs::SlaveLaws::rests_woken), unfolding(crate::specs::Rules::Slaves::rested))]
pub fn wake_slaves(file: &mut [u8])
    requires { AcceptedFile file.old }
    ensures { Becomes file.new (rested nothing (decode file.old)) }
{
    for slave in 0..slave_count(file) {
        set_sleep(file, slave, AWAKE);
    }
}

#[tactic(auto, using(crate::proofs::Changing::changes, crate::proofs::Kept::rests_kept), unfolding(crate::specs::Rules::Slaves::rested))]
fn sleep_round(file: &mut [u8], places: &SlavePlaces, name: LogicalName)
    requires { Placed file.old places.now }
    ensures { Becomes file.new (rested (sleeping (name_in_lem name)) (decode file.old)) }
{
    for slave in 0..slave_count(file) {
        sleep_slave(file, places, slave, name);
    }
}

// Whether a duty puts slaves to sleep.
pub fn puts_to_sleep(duty: Duty) -> bool
    ensures { result ≡ puts_to_sleep duty }
{
    matches!(duty, Duty::Sleep)
}

// Who is awake after a round with that duty: all but those that it puts to sleep.
#[tactic(auto, using(crate::proofs::DataLaws::duty_rests, crate::proofs::DataLaws::duty_wakes))]
pub fn rest_slaves(file: &mut [u8], places: &SlavePlaces, duty: Duty, address: RecordAddress)
    requires { Placed file.old places.now }
    ensures { Becomes file.new (rested (duty_at duty address) (decode file.old)) }
{
    if puts_to_sleep(duty) {
        sleep_round(file, places, address.name);
        return;
    }
    wake_slaves(file);
}

// Whether a duty leaves slaves that are awake as they are: they send, or do nothing.
pub fn leaves_slaves(duty: Duty) -> bool
    ensures { result ≡ leaves_slaves duty }
{
    matches!(duty, Duty::Nothing | Duty::Read | Duty::Compare)
}
