// An address frame on a file that is known to be accepted: refused by its ground, or carried out.
ghost use Rattle.std.specs.Prelude.{◌≡◌, ◌≤◌, length};
ghost use Rattle.file.specs.Rules.Decode.{decode};
ghost use Rattle.file.specs.Inner.Accepted.{AcceptedFile};
ghost use Rattle.file.specs.Inner.Refusals.{outcome_of};
ghost use Rattle.frame.specs.Rules.Fireworks.{msa};
ghost use Rattle.master_slave.specs.Rules.Bus.{slots};
ghost use Rattle.cluster.specs.Rules.RoundGrounds.{round_by_lem};
ghost use Rattle.cluster.specs.Inner.Exchanged.{Exchanged, Taken};

use file::types::Refusal;
use frame::firework::MSA;
use frame::reader::read_address;
use master_slave::pending::become_pending;
use master_slave::slots::{NOBODY, silence};

// An address frame, whoever hears.
pub fn pend_address(file: &mut [u8], frame: &[u8]) -> Result<u64, Refusal>
    requires { AcceptedFile file.old × (round_by_lem frame.now ≡ msa) }
    ensures { Taken (decode file.old) frame.now (outcome_of result) file.new }
{
    let read = read_address(frame)?;
    become_pending(
        file,
        read.epoch,
        read.name,
        read.file,
        read.operation,
        read.record,
    );
    Ok(NOBODY)
}

// The same with its buffer.
pub fn take_address(file: &mut [u8], frame: &[u8], buffer: &mut [u8]) -> Result<u64, Refusal>
    requires { AcceptedFile file.old × (round_by_lem frame.now ≡ msa) × (slots ≤ length buffer.old) }
    ensures { Exchanged (decode file.old) frame.now buffer.old buffer.new (outcome_of result) file.new }
{
    let mask = pend_address(file, frame)?;
    silence(buffer, MSA);
    Ok(mask)
}
