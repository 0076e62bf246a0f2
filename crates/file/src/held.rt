// Ground 22: whether two slaves have one logical name, 0xFF aside.
ghost use Rattle.std.specs.Prelude.{◌≡◌};
ghost use Rattle.file.specs.Rules.Cluster.{logical_names};
ghost use Rattle.file.specs.Rules.Decode.{decode};
ghost use Rattle.file.specs.Rules.FileGrounds.{has_repeat, held_names};
ghost use Rattle.file.specs.Inner.Accepted.{Placed};

use crate::readers::{logical_name, slave_count};
use crate::types::{LogicalName, SlavePlaces};

// The values of a name.
pub const NAME_VALUES: usize = 256;

// From the last slave to the first: which names the slaves after this one hold, 0xFF left out.
fn is_seen_twice(file: &[u8], places: &SlavePlaces) -> bool
    requires { Placed file.now places.now }
    ensures { result ≡ has_repeat (held_names (logical_names (decode file.now))) }
{
    let mut seen = [false; NAME_VALUES];
    for slave in (0..slave_count(file)).rev() {
        let name = logical_name(file, places, slave);
        let mark = name.0 as usize;
        if seen[mark] {
            return true;
        }
        seen[mark] = name != LogicalName::UNNAMED;
    }
    false
}

// Fewer than two slaves are not looked at, and two are compared without the marks.
pub fn is_held_twice(file: &[u8], places: &SlavePlaces) -> bool
    requires { Placed file.now places.now }
    ensures { result ≡ has_repeat (held_names (logical_names (decode file.now))) }
{
    let count = slave_count(file);
    if count < 2 {
        return false;
    }
    if 2 < count {
        return is_seen_twice(file, places);
    }
    let first = logical_name(file, places, 0);
    if first == LogicalName::UNNAMED {
        return false;
    }
    let second = logical_name(file, places, 1);
    first == second
}
