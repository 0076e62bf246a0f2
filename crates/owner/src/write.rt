// The owner file of a cluster file, written into a buffer.
ghost use Rattle.std.specs.Prelude.{◌≡◌, ◌++◌, ◌+◌, ◌≤◌, length};
ghost use Rattle.file.specs.Rules.Results.{written_in};
ghost use Rattle.file.specs.Inner.Typed.{name_in_lem};
ghost use Rattle.file.specs.Inner.Refusals.{outcome_of};
ghost use Rattle.owner.specs.Rules.OwnerWriting.{owner_on};

use crate::rounds::{HEAD_SIZE, ROWS_ROOM, write_rounds};
use file::copying::copy;
use file::survey::survey;
use file::types::{LogicalName, PLACES, Refusal};

// The head and the rows, one after the other.
fn put_file(buffer: &mut [u8], head: &[u8], rows: &[u8])
    requires { length head.now + length rows.now ≤ length buffer.old }
    ensures { buffer.new ≡ written_in buffer.old (head.now ++ rows.now) }
{
    let start = copy(head, buffer);
    copy(rows, &mut buffer[start..]);
}

// The owner file 0x0B of a cluster file, written into the buffer: refused by its number, with the buffer as it was, or written, with
// how many bytes it has. The file is checked once and not copied.
pub fn write_owner(file: &[u8], master: LogicalName, buffer: &mut [u8]) -> Result<usize, Refusal>
    ensures { (outcome_of result, buffer.new) ≡ owner_on file.now (name_in_lem master) buffer.old }
{
    let mut places = [0u16; PLACES];
    survey(file, &mut places)?;
    let mut head = [0u8; HEAD_SIZE];
    let mut rows = [0u8; ROWS_ROOM];
    let written = write_rounds(file, &places, master, &mut head, &mut rows);
    if written.multiplexed {
        return Err(Refusal::MultiplexedSend);
    }
    if written.clash {
        return Err(Refusal::TwoSenders);
    }
    let end = written.length;
    if buffer.len() < HEAD_SIZE + end {
        return Err(Refusal::OwnerBuffer);
    }
    put_file(buffer, &head, &rows[..end]);
    Ok(HEAD_SIZE + end)
}
