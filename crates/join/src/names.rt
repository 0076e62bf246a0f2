// The names of two files: the logical names that the first holds, and whether a physical name is in both.
ghost use Rattle.std.specs.Prelude.{◌≡◌, [], map, ◌*◌, ◌≤◌, length};
ghost use Rattle.file.specs.Rules.Cluster.{logical_names};
ghost use Rattle.file.specs.Rules.Decode.{decode};
ghost use Rattle.file.specs.Inner.Places.{places_each};
ghost use Rattle.file.specs.Inner.Accepted.{slave_count, Placed};
ghost use Rattle.join.specs.Rules.Joined.{shares_name};
ghost use Rattle.join.specs.Inner.Names.{remainder_of, MarksOf};

use file::held::NAME_VALUES;
use file::names::{REMAINDERS, is_named_again};
use file::readers::{logical_name, physical_name, slave_count};
use file::types::{PLACES_EACH, SlavePlaces};

// A mark for each logical name, and one for each remainder of a physical name.
pub type NameMarks = [bool; NAME_VALUES];

type RemainderMarks = [bool; REMAINDERS as usize];

// Marks the logical names that a file's slaves hold, 0x00 and 0xFF among them.
pub fn mark_names(file: &[u8], places: &SlavePlaces, held: &mut NameMarks)
    requires { Placed file.now places.now × MarksOf 256 held.old [] }
    ensures { MarksOf 256 held.new (logical_names (decode file.now)) }
{
    for slave in (0..slave_count(file)).rev() {
        let name = logical_name(file, places, slave);
        held[name.0 as usize] = true;
    }
}

// Marks the remainders of their physical names. The two functions differ in the reader that they call: one for both would take a closure, and be
// longer than either.
fn mark_remainders(file: &[u8], places: &SlavePlaces, seen: &mut RemainderMarks)
    requires { Placed file.now places.now × MarksOf 256 seen.old [] }
    ensures { MarksOf 256 seen.new (map remainder_of (decode file.now).slaves) }
{
    for slave in (0..slave_count(file)).rev() {
        let name = physical_name(file, places, slave);
        seen[(name % REMAINDERS) as usize] = true;
    }
}

// Whether a slave of the second file has the physical name of one of the first: it is compared with theirs only where its remainder is not
// new.
fn is_any_named(
    first: &[u8],
    first_places: &[u16],
    second: &[u8],
    second_places: &SlavePlaces,
    seen: &RemainderMarks,
) -> bool
    requires { Placed first.now first_places.now × (places_each * slave_count first.now ≤ length first_places.now)
        × Placed second.now second_places.now × MarksOf 256 seen.now (map remainder_of (decode first.now).slaves) }
    ensures { result ≡ shares_name (decode first.now) (decode second.now) }
{
    let stated = &first_places[..PLACES_EACH * slave_count(first)];
    for slave in 0..slave_count(second) {
        let name = physical_name(second, second_places, slave);
        let remainder = (name % REMAINDERS) as usize;
        if is_named_again(first, stated, name, seen[remainder]) {
            return true;
        }
    }
    false
}

// Ground 29: "a physical name in both files".
pub fn shares_name(
    first: &[u8],
    first_places: &SlavePlaces,
    second: &[u8],
    second_places: &SlavePlaces,
) -> bool
    requires { Placed first.now first_places.now × Placed second.now second_places.now }
    ensures { result ≡ shares_name (decode first.now) (decode second.now) }
{
    let mut seen = [false; REMAINDERS as usize];
    mark_remainders(first, first_places, &mut seen);
    is_any_named(first, first_places, second, second_places, &seen)
}
