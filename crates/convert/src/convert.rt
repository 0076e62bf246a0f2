// A cluster file's form in an edition, written into a buffer.
ghost use Rattle.std.specs.Prelude.{◌≡◌};
ghost use Rattle.file.specs.Rules.Layout.{OffsetWidth};
ghost use Rattle.file.specs.Rules.Encode.{encode_at};
ghost use Rattle.file.specs.Rules.Decode.{decode};
ghost use Rattle.file.specs.Inner.Accepted.{AcceptedFile};
ghost use Rattle.file.specs.Inner.Refusals.{outcome_of};
ghost use Rattle.convert.specs.Inner.ConversionAnswers.{edition_in};
ghost use Rattle.convert.specs.Inner.Putting.{Put};
ghost use Rattle.convert.specs.Inner.Slaves.{FormFits, is_over};
ghost use Rattle.convert.specs.Rules.Convert.{convert_on};

use crate::editions::{Edition, width_in};
use crate::header::put_header;
use crate::put::put_run;
use crate::sizes::length_in;
use crate::slaves::put_slaves;
use crate::table::SleepBytes;
use file::layout::{
    ENTRY_OFFSETS, HEADER_BYTES, HEADER_OFFSETS, LONGEST_BY_WIDTH, MOST_SLAVES_BY_WIDTH,
};
use file::readers::{slave_count, width_of};
use file::survey::survey;
use file::types::{PLACES, Refusal};

// Whether a form of so many slaves and of that length exceeds the limits of its width: "the limits are 64 slaves and 65,536 bytes".
pub fn is_over(width: usize, count: usize, size: usize) -> bool
    requires { OffsetWidth width }
    ensures { result ≡ is_over width count size }
{
    MOST_SLAVES_BY_WIDTH * width < count || LONGEST_BY_WIDTH * width < size
}

// A file's form at a width other than its own, of that length: the header, then each slave and its table entry.
fn put_form(out: &mut [u8], width: usize, size: usize, file: &[u8])
    requires { AcceptedFile file.now × FormFits width out.old size (decode file.now).slaves }
    ensures { Put out.old 0 (encode_at width (decode file.now)) out.new }
{
    let table = HEADER_BYTES + HEADER_OFFSETS * width;
    let place = table + ENTRY_OFFSETS * width * slave_count(file);
    put_header(out, width, size, file);
    put_slaves(out, width, table, place, file, SleepBytes::Kept);
}

// A file's form at a width, of that length: "Converting to the edition a file already has copies it."
fn put_file(out: &mut [u8], width: usize, size: usize, file: &[u8])
    requires { AcceptedFile file.now × FormFits width out.old size (decode file.now).slaves }
    ensures { Put out.old 0 (encode_at width (decode file.now)) out.new }
{
    if width == width_of(file) {
        put_run(out, 0, file, 0, size);
        return;
    }
    put_form(out, width, size, file);
}

// The file's form in an edition, written into the buffer: refused by its number, with the buffer as it was, or written, with how many
// bytes it has. The file is checked once, and each byte is written once.
pub fn convert(file: &[u8], edition: Edition, out: &mut [u8]) -> Result<usize, Refusal>
    ensures { (outcome_of result, out.new) ≡ convert_on file.now (edition_in edition) out.old }
{
    let mut places = [0u16; PLACES];
    survey(file, &mut places)?;
    let width = width_in(edition);
    let size = length_in(file, width);
    if is_over(width, slave_count(file), size) {
        return Err(Refusal::EditionLimits);
    }
    if out.len() < size {
        return Err(Refusal::ConversionBuffer);
    }
    put_file(out, width, size, file);
    Ok(size)
}
