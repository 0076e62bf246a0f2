// The slaves of the second file, behind those of the first: "A slave of the second whose logical name the first also holds becomes 0xFF
// (byte 3 of record 1 of 0x08)."
ghost use Rattle.std.specs.Prelude.{◌≡◌, ◌<◌, length};
ghost use Rattle.file.specs.Rules.Decode.{decode};
ghost use Rattle.file.specs.Inner.Accepted.{Placed};
ghost use Rattle.convert.specs.Inner.Slaves.{SlavesFit};
ghost use Rattle.join.specs.Inner.Turned.{turned_in, turned_at, Turned};

use crate::names::NameMarks;
use convert::sizes::file_count;
use file::layout::{ENTRY_OFFSETS, HEADER_BYTES, HEADER_OFFSETS, LOGICAL_NAME_PLACE};
use file::readers::{logical_name, slave_count, width_of};
use file::types::{LogicalName, PLACES_EACH, SlavePlaces};

// The logical name at a place, where the first file holds it.
fn turn_name(out: &mut [u8], at: usize, is_held: bool)
    requires { at < length out.old }
    ensures { out.new ≡ turned_at is_held at out.old }
{
    if !is_held {
        return;
    }
    out[at] = LogicalName::UNNAMED.0;
}

// All the slaves of a file that are put from a place on, by the names that are held. A slave's files lie as far behind those of the slaves
// before it as in the file, but for the directories: `lost` is where the first slave starts in the file, with the directories up to
// this slave's at its width, and `gained` the same in the buffer.
pub fn turn_names(
    out: &mut [u8],
    width: usize,
    at: usize,
    file: &[u8],
    places: &SlavePlaces,
    held: &NameMarks,
)
    requires { Placed file.now places.now × SlavesFit width out.old at (decode file.now).slaves }
    ensures { Turned width at (decode file.now).slaves (turned_in held.now (decode file.now)).slaves out.old out.new }
{
    let own = width_of(file);
    let count = slave_count(file);
    let mut lost = HEADER_BYTES + HEADER_OFFSETS * own + ENTRY_OFFSETS * own * count;
    let mut gained = at;
    for slave in 0..count {
        let files = file_count(file, own, slave);
        lost = lost + ENTRY_OFFSETS * own * files;
        gained = gained + ENTRY_OFFSETS * width * files;
        let name = logical_name(file, places, slave);
        let place = places[PLACES_EACH * slave] as usize;
        let to = place + LOGICAL_NAME_PLACE - lost + gained;
        turn_name(out, to, held[name.0 as usize]);
    }
}
