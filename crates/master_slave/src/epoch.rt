// The epoch: document 01, "What slaves do".
ghost use Rattle.std.specs.Prelude.{◌≡◌};
ghost use Rattle.file.specs.Rules.Decode.{decode};
ghost use Rattle.file.specs.Inner.Accepted.{AcceptedFile, Becomes};
ghost use Rattle.master_slave.specs.Rules.Slaves.{next_epoch, epoch_raised};

use file::readers::read_epoch;
use file::writers::set_epoch;

const LAST_EPOCH: u8 = 255;

// One more, "255 going to 0".
#[tactic(auto, unfolding(crate::specs::Rules::Slaves::next_epoch))]
pub fn next_epoch(epoch: u8) -> u8
    ensures { result ≡ next_epoch epoch }
{
    if epoch == LAST_EPOCH {
        return 0;
    }
    epoch + 1
}

// "Any other round first adds 1 to the epoch".
#[tactic(auto, using(crate::proofs::EpochLaws::raised))]
pub fn raise_epoch(file: &mut [u8])
    requires { AcceptedFile file.old }
    ensures { Becomes file.new (epoch_raised (decode file.old)) }
{
    let epoch = next_epoch(read_epoch(file));
    set_epoch(file, epoch);
}
