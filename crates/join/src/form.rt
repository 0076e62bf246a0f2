// The parts of a joined file: its header, the slave table of both files, the slaves of both.
ghost use Rattle.std.specs.Prelude.{◌≡◌, ◌++◌, false};
ghost use Rattle.file.specs.Rules.Layout.{width_in, header_size};
ghost use Rattle.file.specs.Rules.Results.{written_in};
ghost use Rattle.file.specs.Rules.Decode.{decode};
ghost use Rattle.file.specs.Inner.Accepted.{AcceptedFile, WidthOf, Placed};
ghost use Rattle.convert.specs.Inner.Putting.{Put};
ghost use Rattle.convert.specs.Inner.Slaves.{BodyFits, BodyDone};
ghost use Rattle.join.specs.Rules.Joined.{joined_file};
ghost use Rattle.join.specs.Inner.Turned.{turned_in};
ghost use Rattle.join.specs.Inner.Form.{joined_header, joined_body, HeaderFits, JoinFits, JoinedFits};

use crate::names::{NameMarks, mark_names};
use crate::slaves::turn_names;
use convert::header::put_front;
use convert::put::put_zeros;
use convert::slaves::{put_moved, put_slaves};
use convert::table::SleepBytes;
use file::held::NAME_VALUES;
use file::layout::{
    ENTRY_OFFSETS, EPOCH_OFFSETS, HEADER_BYTES, HEADER_OFFSETS, TABLE_PLACE, ZERO_FIELD_0,
};
use file::readers::{slave_count, width_of};
use file::types::SlavePlaces;

// The header of so many slaves and so many bytes, "with epoch and pending bytes 0".
fn put_joined_header(out: &mut [u8], width: usize, count: usize, size: usize)
    requires { HeaderFits width out.old count size }
    ensures { Put out.old 0 (joined_header width count size) out.new }
{
    put_front(out, width, count, size);
    let fields = TABLE_PLACE + EPOCH_OFFSETS * width;
    put_zeros(out, fields, ZERO_FIELD_0 + EPOCH_OFFSETS * width - 1);
}

// The second file's slaves with their table, all awake, at the first's width.
fn put_second(out: &mut [u8], width: usize, at: usize, place: usize, second: &[u8])
    requires { AcceptedFile second.now × BodyFits width out.old at place (decode second.now).slaves }
    ensures { BodyDone false width at place (decode second.now).slaves out.old out.new }
{
    if width == width_of(second) {
        put_moved(out, width, at, place, second);
        return;
    }
    put_slaves(out, width, at, place, second, SleepBytes::AllAwake);
}

// The table of both files' slaves, all awake, and the slaves of both as they are. The first's form alone has `alone` bytes: the second's
// slaves begin behind these and its own table entries.
fn put_both(out: &mut [u8], width: usize, alone: usize, first: &[u8], second: &[u8])
    requires { AcceptedFile first.now × WidthOf first.now width × AcceptedFile second.now × JoinFits width out.old alone (decode first.now).slaves (decode second.now).slaves }
    ensures { Put out.old (header_size width) (joined_body width ((decode first.now).slaves ++ (decode second.now).slaves)) out.new }
{
    let table = HEADER_BYTES + HEADER_OFFSETS * width;
    let behind = table + ENTRY_OFFSETS * width * slave_count(first);
    let more = ENTRY_OFFSETS * width * slave_count(second);
    put_moved(out, width, table, behind + more, first);
    put_second(out, width, behind, alone + more, second);
}

// All that stands behind the header: both files, and the second's slaves by the names that the first holds.
fn put_joined_body(
    out: &mut [u8],
    width: usize,
    alone: usize,
    first: &[u8],
    second: &[u8],
    places: &SlavePlaces,
    held: &NameMarks,
)
    requires { AcceptedFile first.now × WidthOf first.now width × Placed second.now places.now × JoinFits width out.old alone (decode first.now).slaves (decode second.now).slaves }
    ensures { Put out.old (header_size width) (joined_body width ((decode first.now).slaves ++ (turned_in held.now (decode second.now)).slaves)) out.new }
{
    put_both(out, width, alone, first, second);
    let place = alone + ENTRY_OFFSETS * width * slave_count(second);
    turn_names(out, width, place, second, places, held);
}

// The two files' join in the first's edition, in front of whatever else the buffer holds: of `size` bytes, the first's form of `alone`.
pub fn write_joined(
    first: &[u8],
    first_places: &SlavePlaces,
    second: &[u8],
    second_places: &SlavePlaces,
    out: &mut [u8],
    alone: usize,
    size: usize,
)
    requires { Placed first.now first_places.now × Placed second.now second_places.now
        × JoinedFits (width_in (decode first.now).edition) out.old alone size (decode first.now).slaves (decode second.now).slaves }
    ensures { out.new ≡ written_in out.old (joined_file first.now second.now) }
{
    let width = width_of(first);
    let count = slave_count(first) + slave_count(second);
    let mut held = [false; NAME_VALUES];
    mark_names(first, first_places, &mut held);
    put_joined_header(out, width, count, size);
    put_joined_body(out, width, alone, first, second, second_places, &held);
}
