// The writers of address frames and of data frames.
ghost use Rattle.std.specs.Prelude.{◌≡◌, [], ◌∷◌, ◌++◌, ◌≤◌, length, drop};
ghost use Rattle.frame.specs.Rules.Frames.{frame_size, frame_of};
ghost use Rattle.frame.specs.Rules.Writing.{write_address, write_data};
ghost use Rattle.file.specs.Inner.Typed.{file_in, record_in, name_in_lem, operation_in};
ghost use Rattle.file.specs.Inner.Refusals.{outcome_of};

use crate::check::{address_check, data_check};
use crate::firework::{MSA, MSD};
use crate::frames::{
    CHECK_PLACE, FIREWORK_PLACE, FRAME_SIZE, PB0_PLACE, PB1_PLACE, PB2_PLACE, PB3_PLACE,
};
use file::operations::{is_broadcast_read, is_no_operation, pb2_of};
use file::types::{FileNumber, LogicalName, Operation, RecordNumber, Refusal};

// "MSD is 6 bytes (0x49, four data bytes, check)": at the same places.
#[tactic(auto, using(crate::proofs::Writing::bytes_stored))]
fn put_frame(buf: &mut [u8], firework: u8, bytes: &[u8; 4], check: u8)
    requires { frame_size ≤ length buf.old }
    ensures { buf.new ≡ frame_of firework bytes.now check ++ drop frame_size buf.old }
{
    buf[FIREWORK_PLACE] = firework;
    buf[PB0_PLACE] = bytes[0];
    buf[PB1_PLACE] = bytes[1];
    buf[PB2_PLACE] = bytes[2];
    buf[PB3_PLACE] = bytes[3];
    buf[CHECK_PLACE] = check;
}

pub fn write_address(
    buf: &mut [u8],
    epoch: u8,
    name: LogicalName,
    file: FileNumber,
    operation: Operation,
    record: RecordNumber,
) -> Result<(), Refusal>
    ensures { (outcome_of result, buf.new)
        ≡ write_address buf.old epoch (name_in_lem name) (file_in file) (operation_in operation) (record_in «record») }
{
    if buf.len() < FRAME_SIZE {
        return Err(Refusal::Buffer);
    }
    if is_no_operation(operation) {
        return Err(Refusal::Operation);
    }
    if is_broadcast_read(operation, name) {
        return Err(Refusal::BroadcastRead);
    }
    if FileNumber::LAST < file {
        return Err(Refusal::FileNumber);
    }
    let pb2 = pb2_of(file, operation);
    let check = address_check(epoch, name.0, pb2, record.0);
    put_frame(buf, MSA, &[epoch, name.0, pb2, record.0], check);
    Ok(())
}

pub fn write_data(buf: &mut [u8], b0: u8, b1: u8, b2: u8, b3: u8) -> Result<(), Refusal>
    ensures { (outcome_of result, buf.new) ≡ write_data buf.old (b0 ∷ b1 ∷ b2 ∷ b3 ∷ []) }
{
    if buf.len() < FRAME_SIZE {
        return Err(Refusal::Buffer);
    }
    let check = data_check(b0, b1, b2, b3);
    put_frame(buf, MSD, &[b0, b1, b2, b3], check);
    Ok(())
}
