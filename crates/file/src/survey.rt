// The checker: grounds 1 to 8, with where each slave keeps 0x08 and 0x3D; and 22, on loading.
ghost use Rattle.std.specs.Prelude.{◌≡◌};
ghost use Rattle.file.specs.Rules.Layout.{OffsetWidth};
ghost use Rattle.file.specs.Rules.FileGrounds.{is_among, load_verdict};
ghost use Rattle.file.specs.Inner.Checked.{GoodHeader, BodyWalked, PlacesFit, WholeWalk, slaves_ground};
ghost use Rattle.file.specs.Inner.Surveyed.{Surveyed};
ghost use Rattle.file.specs.Rules.Results.{number_in};
ghost use Rattle.file.specs.Inner.Refusals.{outcome_of};

use crate::header::header_ground;
use crate::held::is_held_twice;
use crate::layout::{COUNT_PLACE, ENTRY_OFFSETS, HEADER_BYTES, HEADER_OFFSETS};
use crate::names::equal_names;
use crate::numbers::byte_at;
use crate::readers::width_of;
use crate::types::{PLACES, PLACES_EACH, Refusal, SlavePlaces};
use crate::walk::walk_slaves;

// Whether a slave lacks a file: its place is 0. Without an exit the compiler looks at several places at a time.
fn is_missing(places: &[u16]) -> bool
    ensures { result ≡ is_among 0 places.now }
{
    let mut missing = false;
    for place in places {
        if *place == 0 {
            missing = true;
        }
    }
    missing
}

// Ground 6 after a good header: whether the layout is whole; the places that its directories state are put into the lent array.
fn walk_body(file: &[u8], width: usize, places: &mut [u16]) -> bool
    requires { OffsetWidth width × GoodHeader width file.now × PlacesFit width places.old }
    ensures { BodyWalked width file.now result places.new }
{
    let count = byte_at(file, COUNT_PLACE);
    let header = HEADER_BYTES + HEADER_OFFSETS * width;
    let size = ENTRY_OFFSETS * width;
    if file.len() < header + size * count {
        return false;
    }
    let Some(end) = walk_slaves(file, width, count, places) else {
        return false;
    };
    end == file.len()
}

// Grounds 7 and 8, by the places that the directories of all slaves state.
fn slaves_ground(file: &[u8], width: usize, places: &[u16]) -> Result<(), Refusal>
    requires { WholeWalk width file.now places.now × PlacesFit width places.now }
    ensures { number_in (outcome_of result) ≡ slaves_ground width file.now }
{
    let count = byte_at(file, COUNT_PLACE);
    let stated = &places[..PLACES_EACH * count];
    if is_missing(stated) {
        return Err(Refusal::NeededFile);
    }
    if equal_names(file, stated) {
        return Err(Refusal::PhysicalNames);
    }
    Ok(())
}

// The answer to a file; where it is accepted, the lent array holds its places.
pub fn survey(file: &[u8], places: &mut SlavePlaces) -> Result<(), Refusal>
    ensures { Surveyed file.now (outcome_of result) places.new }
{
    // The whole file as a slice of its own: then its place and its length are handed over in registers.
    let bytes = &file[..];
    let width = width_of(bytes);
    header_ground(bytes, width)?;
    if !walk_body(bytes, width, places) {
        return Err(Refusal::Layout);
    }
    slaves_ground(bytes, width, places)
}

// The checker's call: a file from outside is accepted, or refused by the first of its grounds that holds.
pub fn check(file: &[u8]) -> Result<(), Refusal>
    ensures { outcome_of result ≡ load_verdict file.now }
{
    let mut places = [0u16; PLACES];
    survey(file, &mut places)?;
    if is_held_twice(file, &places) {
        return Err(Refusal::LogicalNames);
    }
    Ok(())
}
