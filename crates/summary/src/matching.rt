// Ground 24: whether a summary does not match its file.
ghost use Rattle.std.specs.Prelude.{◌≡◌};
ghost use Rattle.file.specs.Rules.Cluster.{logical_names};
ghost use Rattle.file.specs.Rules.Decode.{decode};
ghost use Rattle.file.specs.Inner.Accepted.{Placed};
ghost use Rattle.cluster.specs.Rules.Summary.{kept, wrong_summary};

use file::readers::{logical_name, slave_count};
use file::types::{LogicalName, SlavePlaces};

// Whether the count is not that of the file's slaves, or the slice does not begin with their names. The C interface hands in slice and count
// apart, here and in the calls, and 24 speaks of a count above the slice's length too. File and places stay two arguments, as `naming::run` says.
pub fn is_wrong(file: &[u8], places: &SlavePlaces, held: &[u8], count: usize) -> bool
    requires { Placed file.now places.now }
    ensures { result ≡ wrong_summary (kept count held.now) (logical_names (decode file.now)) }
{
    if held.len() < count {
        return true;
    }
    if count != slave_count(file) {
        return true;
    }
    for slave in 0..count {
        let name = logical_name(file, places, slave);
        if LogicalName(held[slave]) != name {
            return true;
        }
    }
    false
}
