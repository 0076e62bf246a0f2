// Ground 19: a trace's layout, "frame count (2 bytes), data length (2), then for each frame its offset in the data (2) and length (1),
// then the data".
ghost use Rattle.std.specs.Prelude.{◌≡◌, ◌+◌, ◌*◌, ◌≤◌, length};
ghost use Rattle.trace.specs.Rules.Layout.{header_size, row_size, max_trace};
ghost use Rattle.trace.specs.Rules.Trace.{broken_trace, whole_rows};

use file::numbers::{byte_at, u16_at};

pub const COUNT_PLACE: usize = 0;

pub const DATA_LENGTH_PLACE: usize = 2;

pub const HEADER_SIZE: usize = 4;

// In a row, the frame's length comes after its offset.
pub const LENGTH_PLACE: usize = 2;

pub const ROW_SIZE: usize = 3;

// "the whole at most 16,384 bytes"
pub const MAX_TRACE: usize = 16384;

// Whether the rows from the header on state frames that fill the data in order without gap.
fn whole_rows(trace: &[u8], count: usize) -> bool
    requires { (header_size + row_size * count ≤ length trace.now) × (length trace.now ≤ max_trace) }
    ensures { result ≡ whole_rows trace.now header_size 0 count }
{
    let mut place = 0;
    for index in 0..count {
        let row = HEADER_SIZE + ROW_SIZE * index;
        if u16_at(trace, row) != place {
            return false;
        }
        place = place + byte_at(trace, row + LENGTH_PLACE);
    }
    place == u16_at(trace, DATA_LENGTH_PLACE)
}

// "19, a trace whose header, offsets or length break this layout"
pub fn is_broken(trace: &[u8]) -> bool
    ensures { result ≡ broken_trace trace.now }
{
    if trace.len() < HEADER_SIZE {
        return true;
    }
    if MAX_TRACE < trace.len() {
        return true;
    }
    let count = u16_at(trace, COUNT_PLACE);
    if trace.len() != HEADER_SIZE + ROW_SIZE * count + u16_at(trace, DATA_LENGTH_PLACE) {
        return true;
    }
    !whole_rows(trace, count)
}
