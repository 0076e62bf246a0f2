// The header of a cluster file.
ghost use Rattle.std.specs.Prelude.{◌≤◌, ◌<◌, length};
ghost use Rattle.file.specs.Rules.Layout.{header_size};
ghost use Rattle.file.specs.Rules.Encode.{header};
ghost use Rattle.file.specs.Rules.Decode.{decode};
ghost use Rattle.file.specs.Inner.Accepted.{AcceptedFile};
ghost use Rattle.convert.specs.Inner.Putting.{Put, OffsetFits, header_front};
ghost use Rattle.convert.specs.Inner.Slaves.{FormFits};

use crate::put::{put_offset, put_run, put_zeros};
use file::layout::{
    COUNT_PLACE, EDITION_PLACE, EPOCH_OFFSETS, HEADER_BYTES, HEADER_OFFSETS, MARK_0, MARK_1,
    MARK_PLACE_0, MARK_PLACE_1, OFFSET_WIDTH, TABLE_PLACE, ZERO_FIELD_0,
};
use file::readers::{epoch_place, slave_count};

// Its front: "the mark", "the edition", "the slave count", "the offset of the slave table", "the file's length".
pub fn put_front(out: &mut [u8], width: usize, count: usize, size: usize)
    requires { OffsetFits width size × (count < 256) × (header_size width ≤ length out.old) }
    ensures { Put out.old 0 (header_front width count size) out.new }
{
    out[MARK_PLACE_0] = MARK_0 as u8;
    out[MARK_PLACE_1] = MARK_1 as u8;
    out[EDITION_PLACE] = (width / OFFSET_WIDTH) as u8;
    out[COUNT_PLACE] = count as u8;
    put_offset(
        out,
        width,
        TABLE_PLACE,
        HEADER_BYTES + HEADER_OFFSETS * width,
    );
    put_offset(out, width, TABLE_PLACE + width, size);
}

// The header of a file's form at a width: the epoch and the pending bytes are the file's.
pub fn put_header(out: &mut [u8], width: usize, size: usize, file: &[u8])
    requires { AcceptedFile file.now × FormFits width out.old size (decode file.now).slaves }
    ensures { Put out.old 0 (header width (decode file.now)) out.new }
{
    put_front(out, width, slave_count(file), size);
    let epoch = epoch_place(file);
    let fields = TABLE_PLACE + EPOCH_OFFSETS * width;
    put_run(out, fields, file, epoch, epoch + ZERO_FIELD_0);
    put_zeros(out, fields + ZERO_FIELD_0, EPOCH_OFFSETS * width - 1);
}
