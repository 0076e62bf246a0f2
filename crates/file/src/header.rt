// Grounds 1 to 5: what the header alone decides.
ghost use Rattle.std.specs.Prelude.{◌≡◌, ◌+◌, ◌*◌, ◌-◌, ◌≤◌, length};
ghost use Rattle.file.specs.Rules.Layout.{OffsetWidth};
ghost use Rattle.file.specs.Rules.Bytes.{part, all_zero};
ghost use Rattle.file.specs.Rules.FileGrounds.{wrong_size, wrong_mark, wrong_edition, wrong_length, wrong_pending, wrong_header};
ghost use Rattle.file.specs.Rules.Results.{number_in};
ghost use Rattle.file.specs.Inner.Typed.{name_in_lem};
ghost use Rattle.file.specs.Inner.Checked.{HeaderFits, HeaderChecked};
ghost use Rattle.file.specs.Inner.Refusals.{outcome_of};

use crate::layout::{
    COUNT_PLACE, EDITION_PLACE, EPOCH_OFFSETS, FLAG_FIELD, HEADER_BYTES, HEADER_OFFSETS,
    LONGEST_BY_WIDTH, MARK_0, MARK_1, MARK_PLACE_0, MARK_PLACE_1, MORE_ZEROS_FIELD,
    MOST_SLAVES_BY_WIDTH, OFFSET_WIDTH, PENDING, PENDING_NAME_FIELD, PENDING_PB2_FIELD,
    TABLE_PLACE, WIDE_OFFSET_WIDTH, ZERO_FIELD_0, ZERO_FIELD_1, ZERO_FIELD_2,
};
use crate::numbers::{byte_at, offset_at};
use crate::operations::{is_broadcast_read, is_no_operation, operation_of};
use crate::types::{LogicalName, Refusal};

fn wrong_size(file: &[u8], width: usize) -> bool
    requires { OffsetWidth width }
    ensures { result ≡ wrong_size width file.now }
{
    let header = HEADER_BYTES + HEADER_OFFSETS * width;
    let longest = LONGEST_BY_WIDTH * width;
    file.len() < header || longest < file.len()
}

fn wrong_mark(file: &[u8]) -> bool
    requires { 2 ≤ length file.now }
    ensures { result ≡ wrong_mark file.now }
{
    if byte_at(file, MARK_PLACE_0) != MARK_0 {
        return true;
    }
    byte_at(file, MARK_PLACE_1) != MARK_1
}

fn wrong_edition(file: &[u8], width: usize) -> bool
    requires { HeaderFits width file.now }
    ensures { result ≡ wrong_edition width file.now }
{
    byte_at(file, EDITION_PLACE) != width / OFFSET_WIDTH
}

fn wrong_length(file: &[u8], width: usize) -> bool
    requires { HeaderFits width file.now }
    ensures { result ≡ wrong_length width file.now }
{
    offset_at(file, width, TABLE_PLACE + width) != file.len()
}

// A pending operation is no operation 3 and no broadcast read.
fn wrong_pending(flag: u8, name: LogicalName, pb2: u8) -> bool
    ensures { result ≡ wrong_pending flag (name_in_lem name) pb2 }
{
    if PENDING < flag {
        return true;
    }
    if flag != PENDING {
        return false;
    }
    let operation = operation_of(pb2);
    if is_no_operation(operation) {
        return true;
    }
    is_broadcast_read(operation, name)
}

// The four zeros that edition 2's header has more.
fn more_zeros(file: &[u8], width: usize, at: usize) -> bool
    requires { OffsetWidth width × (at + (2 * width - 4) ≤ length file.now) }
    ensures { result ≡ all_zero (part file.now at (2 * width - 4)) }
{
    if width == OFFSET_WIDTH {
        return true;
    }
    offset_at(file, width, at) == 0
}

fn wrong_header(file: &[u8], width: usize) -> bool
    requires { HeaderFits width file.now }
    ensures { result ≡ wrong_header width file.now }
{
    if MOST_SLAVES_BY_WIDTH * width < byte_at(file, COUNT_PLACE) {
        return true;
    }
    let header = HEADER_BYTES + HEADER_OFFSETS * width;
    if offset_at(file, width, TABLE_PLACE) != header {
        return true;
    }
    let epoch = TABLE_PLACE + EPOCH_OFFSETS * width;
    if byte_at(file, epoch + ZERO_FIELD_0) != 0 {
        return true;
    }
    if byte_at(file, epoch + ZERO_FIELD_1) != 0 {
        return true;
    }
    if byte_at(file, epoch + ZERO_FIELD_2) != 0 {
        return true;
    }
    if !more_zeros(file, width, epoch + MORE_ZEROS_FIELD) {
        return true;
    }
    let name = LogicalName::new(file[epoch + PENDING_NAME_FIELD]);
    wrong_pending(
        file[epoch + FLAG_FIELD],
        name,
        file[epoch + PENDING_PB2_FIELD],
    )
}

// Refused by the first of grounds 1 to 5 that holds, in an edition: the compiler writes the tests once for each width, with its numbers.
fn header_ground_at<const WIDTH: usize>(file: &[u8]) -> Result<(), Refusal>
    requires { OffsetWidth WIDTH }
    ensures { HeaderChecked WIDTH file.now (number_in (outcome_of result)) }
{
    if wrong_size(file, WIDTH) {
        return Err(Refusal::Size);
    }
    if wrong_mark(file) {
        return Err(Refusal::Mark);
    }
    if wrong_edition(file, WIDTH) {
        return Err(Refusal::Edition);
    }
    if wrong_length(file, WIDTH) {
        return Err(Refusal::Length);
    }
    if wrong_header(file, WIDTH) {
        return Err(Refusal::Header);
    }
    Ok(())
}

pub fn header_ground(file: &[u8], width: usize) -> Result<(), Refusal>
    requires { OffsetWidth width }
    ensures { HeaderChecked width file.now (number_in (outcome_of result)) }
{
    if width == OFFSET_WIDTH {
        return header_ground_at::<OFFSET_WIDTH>(file);
    }
    header_ground_at::<WIDE_OFFSET_WIDTH>(file)
}
