// Who holds a logical name, by the summary alone.
ghost use Rattle.std.specs.Prelude.{◌≡◌};
ghost use Rattle.file.specs.Inner.Typed.{name_in_lem};
ghost use Rattle.cluster.specs.Rules.Summary.{holder_in};
ghost use Rattle.summary.specs.Inner.SummaryAnswers.{holder_of};

use file::types::{LogicalName, Refusal};

// The place in the slave table of the first slave that holds the name, or none where nobody does. The C interface hands in slice and count apart.
pub fn find_holder(held: &[u8], count: usize, name: LogicalName) -> Result<Option<usize>, Refusal>
    ensures { holder_of result ≡ holder_in (name_in_lem name) count held.now }
{
    if held.len() < count {
        return Err(Refusal::Summary);
    }
    for place in 0..count {
        if LogicalName(held[place]) == name {
            return Ok(Some(place));
        }
    }
    Ok(None)
}
