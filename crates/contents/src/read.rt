// A slave's file, read into a buffer.
ghost use Rattle.std.specs.Prelude.{◌≡◌, ◌+◌, ◌≤◌, length, take};
ghost use Rattle.file.specs.Rules.Bytes.{part};
ghost use Rattle.file.specs.Rules.Results.{written_in};
ghost use Rattle.file.specs.Inner.Typed.{file_in};
ghost use Rattle.file.specs.Inner.Refusals.{outcome_of};
ghost use Rattle.contents.specs.Rules.Contents.{contents_on};

use file::copying::copy;
use file::readers::slave_count;
use file::records::find_file;
use file::survey::survey;
use file::types::{FileNumber, PLACES, Refusal};

// The first bytes of a part of the file, as many as the buffer has room for, put in front of whatever else it holds.
fn put_front(file: &[u8], place: usize, size: usize, buffer: &mut [u8])
    requires { place + size ≤ length file.now }
    ensures { buffer.new ≡ written_in buffer.old (take (length buffer.old) (part file.now place size)) }
{
    let end = place + size.min(buffer.len());
    copy(&file[place..end], buffer);
}

// A file of the slave at a place of the table: the cluster file is refused by its number, with the buffer as it was, or the buffer has in
// front as many of the file's bytes as it has room for, and the answer is how many bytes the file has, none where there is no such slave or
// file. The cluster file is checked once and not altered.
pub fn read_contents(
    file: &[u8],
    slave: usize,
    number: FileNumber,
    buffer: &mut [u8],
) -> Result<usize, Refusal>
    ensures { (outcome_of result, buffer.new) ≡ contents_on file.now slave (file_in number) buffer.old }
{
    let mut places = [0u16; PLACES];
    survey(file, &mut places)?;
    if slave_count(file) <= slave {
        return Ok(0);
    }
    let Some(bytes) = find_file(file, slave, number) else {
        return Ok(0);
    };
    put_front(file, bytes.place, bytes.size, buffer);
    Ok(bytes.size)
}
