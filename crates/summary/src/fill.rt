// A summary filled from a cluster file.
ghost use Rattle.std.specs.Prelude.{◌≡◌};
ghost use Rattle.cluster.specs.Rules.Summary.{fill_on};
ghost use Rattle.file.specs.Inner.Refusals.{outcome_of};

use file::readers::{logical_names, slave_count};
use file::survey::survey;
use file::types::{PLACES, Refusal};

// A file is refused, or its slaves' names are filled in, with how many there are.
pub fn fill(file: &[u8], held: &mut [u8]) -> Result<usize, Refusal>
    ensures { (outcome_of result, held.new) ≡ fill_on file.now held.old }
{
    let mut places = [0u16; PLACES];
    survey(file, &mut places)?;
    let count = slave_count(file);
    if held.len() < count {
        return Err(Refusal::Summary);
    }
    logical_names(file, &places, held);
    Ok(count)
}
