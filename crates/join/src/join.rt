// Two cluster files joined into one, written into a buffer.
ghost use Rattle.std.specs.Prelude.{◌≡◌, false};
ghost use Rattle.file.specs.Rules.Decode.{decode};
ghost use Rattle.file.specs.Inner.Accepted.{Placed};
ghost use Rattle.file.specs.Inner.Refusals.{outcome_of};
ghost use Rattle.join.specs.Rules.Joined.{shares_name};
ghost use Rattle.join.specs.Rules.Join.{join_on};

use crate::form::write_joined;
use crate::names::shares_name;
use convert::convert::is_over;
use convert::sizes::length_in;
use file::layout::{HEADER_BYTES, HEADER_OFFSETS};
use file::readers::{slave_count, width_of};
use file::survey::survey;
use file::types::{PLACES, Refusal, SlavePlaces};

// Two accepted files that share no physical name: 30, or their join in the first's edition.
fn join_apart(
    first: &[u8],
    first_places: &SlavePlaces,
    second: &[u8],
    second_places: &SlavePlaces,
    out: &mut [u8],
) -> Result<usize, Refusal>
    requires { Placed first.now first_places.now × Placed second.now second_places.now × (shares_name (decode first.now) (decode second.now) ≡ false) }
    ensures { (outcome_of result, out.new) ≡ join_on first.now second.now out.old }
{
    let width = width_of(first);
    let alone = length_in(first, width);
    let more = length_in(second, width);
    let size = alone + more - (HEADER_BYTES + HEADER_OFFSETS * width);
    let count = slave_count(first) + slave_count(second);
    if is_over(width, count, size) {
        return Err(Refusal::JoinedLimits);
    }
    if out.len() < size {
        return Err(Refusal::JoinedLimits);
    }
    write_joined(first, first_places, second, second_places, out, alone, size);
    Ok(size)
}

// Two accepted files: 29, or the answer to files that share no physical name.
fn join_both(
    first: &[u8],
    first_places: &SlavePlaces,
    second: &[u8],
    second_places: &SlavePlaces,
    out: &mut [u8],
) -> Result<usize, Refusal>
    requires { Placed first.now first_places.now × Placed second.now second_places.now }
    ensures { (outcome_of result, out.new) ≡ join_on first.now second.now out.old }
{
    if shares_name(first, first_places, second, second_places) {
        return Err(Refusal::SharedName);
    }
    join_apart(first, first_places, second, second_places, out)
}

// The first file is accepted: the grounds of the second, or the answer to two accepted files.
fn join_second(
    first: &[u8],
    first_places: &SlavePlaces,
    second: &[u8],
    out: &mut [u8],
) -> Result<usize, Refusal>
    requires { Placed first.now first_places.now }
    ensures { (outcome_of result, out.new) ≡ join_on first.now second.now out.old }
{
    let mut places = [0u16; PLACES];
    survey(second, &mut places)?;
    join_both(first, first_places, second, &places, out)
}

// The two files joined, written into the buffer: refused by its number, with the buffer as it was, or written, with how many bytes it has.
// Each file is checked once, and the files of its slaves are copied once.
pub fn join(first: &[u8], second: &[u8], out: &mut [u8]) -> Result<usize, Refusal>
    ensures { (outcome_of result, out.new) ≡ join_on first.now second.now out.old }
{
    let mut places = [0u16; PLACES];
    survey(first, &mut places)?;
    join_second(first, &places, second, out)
}
