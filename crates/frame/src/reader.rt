// The address-frame reader.
ghost use Rattle.std.specs.Prelude.{◌≡◌, length};
ghost use Rattle.frame.specs.Rules.Check.{address_check};
ghost use Rattle.frame.specs.Rules.Frames.{frame_size};
ghost use Rattle.frame.specs.Rules.FrameGrounds.{no_address, wrong_check};
ghost use Rattle.frame.specs.Rules.Reading.{read_address};
ghost use Rattle.frame.specs.Inner.FrameAnswers.{reading_of};

use crate::check::address_check;
use crate::firework::MSA;
use crate::frames::{
    CHECK_PLACE, FIREWORK_PLACE, FRAME_SIZE, PB0_PLACE, PB1_PLACE, PB2_PLACE, PB3_PLACE,
};
use crate::types::AddressFrame;
use file::operations::{file_number_of, is_broadcast_read, is_no_operation, operation_of};
use file::types::{LogicalName, RecordNumber, Refusal};

#[tactic(auto, unfolding(crate::specs::Rules::FrameGrounds::no_address, file::specs::Rules::Order::either))]
fn is_no_address(frame: &[u8]) -> bool
    ensures { result ≡ no_address frame.now }
{
    if frame.len() == 0 {
        return true;
    }
    frame[FIREWORK_PLACE] != MSA
}

#[tactic(auto, unfolding(crate::specs::Rules::FrameGrounds::wrong_check))]
fn is_wrong_check(frame: &[u8]) -> bool
    requires { length frame.now ≡ frame_size }
    ensures { result ≡ wrong_check address_check frame.now }
{
    let check = address_check(
        frame[PB0_PLACE],
        frame[PB1_PLACE],
        frame[PB2_PLACE],
        frame[PB3_PLACE],
    );
    frame[CHECK_PLACE] != check
}

pub fn read_address(frame: &[u8]) -> Result<AddressFrame, Refusal>
    ensures { reading_of result ≡ read_address frame.now }
{
    if is_no_address(frame) {
        return Err(Refusal::Firework);
    }
    if frame.len() != FRAME_SIZE {
        return Err(Refusal::FrameLength);
    }
    if is_wrong_check(frame) {
        return Err(Refusal::Check);
    }
    let pb2 = frame[PB2_PLACE];
    let name = LogicalName::new(frame[PB1_PLACE]);
    let operation = operation_of(pb2);
    if is_no_operation(operation) {
        return Err(Refusal::Operation);
    }
    if is_broadcast_read(operation, name) {
        return Err(Refusal::BroadcastRead);
    }
    Ok(AddressFrame {
        epoch: frame[PB0_PLACE],
        name,
        file: file_number_of(pb2),
        operation,
        record: RecordNumber(frame[PB3_PLACE]),
    })
}
