// A complete master-slave round as a master sends it, on a file that is known to be accepted.
ghost use Rattle.std.specs.Prelude.{◌≤◌, ◌≡◌, length};
ghost use Rattle.file.specs.Rules.Results.{done};
ghost use Rattle.file.specs.Inner.Accepted.{Placed};
ghost use Rattle.master_slave.specs.Rules.Bus.{slots};
ghost use Rattle.cluster.specs.Rules.MasterSlave.{round_sent};
ghost use Rattle.cluster.specs.Inner.Sending.{sent_for, MaySend};

use file::readers::read_epoch;
use file::types::SlavePlaces;
use master_slave::epoch::next_epoch;
use master_slave::master_slave::master_slave;
use master_slave::types::MasterSlaveRound;

// The round as a master sends it, "PB0 being the file's epoch plus 1 modulo 256". The mask of its data frame.
pub fn send(
    file: &mut [u8],
    places: &SlavePlaces,
    round: MasterSlaveRound,
    buffer: &mut [u8],
) -> u64
    requires { Placed file.old places.now × MaySend (sent_for round) × (slots ≤ length buffer.old) }
    ensures { (done result, buffer.new, file.new) ≡ round_sent file.old (sent_for round) buffer.old }
{
    let epoch = next_epoch(read_epoch(file));
    master_slave(file, places, epoch, round, buffer)
}
