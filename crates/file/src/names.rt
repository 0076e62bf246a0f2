// Ground 8: whether two slaves have equal physical names.
ghost use Rattle.std.specs.Prelude.{◌≡◌, false, ◌≤◌, ◌<◌, ◌/◌, length, get_or, drop};
ghost use Rattle.file.specs.Rules.FileGrounds.{is_among, has_repeat};
ghost use Rattle.file.specs.Inner.Places.{places_each, documentation_index};
ghost use Rattle.file.specs.Inner.Checked.{name_at, names_at, NamesStand, RemainderAt, repeats_name};

use crate::layout::PHYSICAL_NAME_PLACE;
use crate::numbers::{byte_at, u64_at};
use crate::types::PLACES_EACH;

// Equal names have equal remainders by this number.
pub const REMAINDERS: u64 = 256;

// The last of the name's eight bytes.
const LAST_BYTE: usize = 7;

// A slave's physical name: the number in the eight bytes after record 0x00 of its documentation.
fn name_at(file: &[u8], places: &[u16], slave: usize) -> u64
    requires { (slave < length places.now / places_each) × NamesStand file.now places.now }
    ensures { result ≡ name_at file.now (get_or places.now (documentation_index slave) 0) }
{
    let place = places[PLACES_EACH * slave + 1] as usize;
    u64_at(file, place + PHYSICAL_NAME_PLACE)
}

// Its remainder: the name's last byte.
fn remainder_at(file: &[u8], places: &[u16], slave: usize) -> usize
    requires { (slave < length places.now / places_each) × NamesStand file.now places.now }
    ensures { RemainderAt file.now (get_or places.now (documentation_index slave) 0) result }
{
    let place = places[PLACES_EACH * slave + 1] as usize;
    byte_at(file, place + PHYSICAL_NAME_PLACE + LAST_BYTE)
}

// Whether one of the slaves from a slave on has the name.
fn is_named_from(file: &[u8], places: &[u16], from: usize, name: u64) -> bool
    requires { NamesStand file.now places.now × (from ≤ length places.now / places_each) }
    ensures { result ≡ is_among name (drop from (names_at file.now places.now)) }
{
    for slave in from..places.len() / PLACES_EACH {
        if name_at(file, places, slave) == name {
            return true;
        }
    }
    false
}

// Whether one has a name whose remainder may be new: then none has it.
pub fn is_named_again(file: &[u8], places: &[u16], name: u64, seen: bool) -> bool
    requires { NamesStand file.now places.now × (seen ≡ false → is_among name (names_at file.now places.now) ≡ false) }
    ensures { result ≡ is_among name (names_at file.now places.now) }
{
    if !seen {
        return false;
    }
    is_named_from(file, places, 0, name)
}

// Whether a slave after this one has its name, whose remainder may be new: then none has.
fn is_repeated(file: &[u8], places: &[u16], slave: usize, seen: bool) -> bool
    requires { (slave < length places.now / places_each) × NamesStand file.now places.now × (seen ≡ false → repeats_name file.now places.now slave ≡ false) }
    ensures { result ≡ repeats_name file.now places.now slave }
{
    if !seen {
        return false;
    }
    let name = name_at(file, places, slave);
    is_named_from(file, places, slave + 1, name)
}

// From the last slave to the first: a name is compared with those of the slaves after it only where its remainder is not new. Fewer than
// two slaves are not looked at, and two are compared without the marks.
pub fn equal_names(file: &[u8], places: &[u16]) -> bool
    requires { NamesStand file.now places.now }
    ensures { result ≡ has_repeat (names_at file.now places.now) }
{
    let count = places.len() / PLACES_EACH;
    if count < 2 {
        return false;
    }
    if count == 2 {
        return name_at(file, places, 0) == name_at(file, places, 1);
    }
    let mut seen = [false; REMAINDERS as usize];
    for slave in (0..count).rev() {
        let remainder = remainder_at(file, places, slave);
        if is_repeated(file, places, slave, seen[remainder]) {
            return true;
        }
        seen[remainder] = true;
    }
    false
}
