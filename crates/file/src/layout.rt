// The numbers of the layout (document 01, "The cluster file"; document 02, job 10), over the width of an offset: 2 bytes in edition 1, 4 in
// edition 2. The layers above take what they need of them by name: the size of a record, how many bytes a file may have, the flag of a
// pending operation.
use crate::types::RecordNumber;

// "Header, 16 bytes: 0 to 1 the mark 0x54 0x41; 2 the edition, 1; 3 the slave count, 0 to 32; 4 to 5 the offset of the slave table, 16;
// 6 to 7 the file's length; 8 the epoch; 9 the pending flag, 0 or 1; 10 to 12 the pending logical name, PB2 and PB3; 13 to 15 zero."
pub const MARK_PLACE_0: usize = 0;

pub const MARK_PLACE_1: usize = 1;

pub const MARK_0: usize = 0x54;

pub const MARK_1: usize = 0x41;

pub const EDITION_PLACE: usize = 2;

pub const COUNT_PLACE: usize = 3;

pub const TABLE_PLACE: usize = 4;

// The bytes of an offset in edition 1: an edition's number is its width by this one.
pub const OFFSET_WIDTH: usize = 2;

// "In edition 2 offsets and length have 4 bytes"
pub const WIDE_EDITION: u8 = 2;

pub const WIDE_OFFSET_WIDTH: usize = 4;

// The header over the width: 8 bytes and four offsets. The table's offset and the file's length stand behind the slave count, then the
// epoch; the fields behind that, counted from it. Edition 1 has three zeros, edition 2 seven.
pub const HEADER_BYTES: usize = 8;

pub const HEADER_OFFSETS: usize = 4;

pub const EPOCH_OFFSETS: usize = 2;

pub const FLAG_FIELD: usize = 1;

pub const PENDING_NAME_FIELD: usize = 2;

pub const PENDING_PB2_FIELD: usize = 3;

pub const PENDING_PB3_FIELD: usize = 4;

pub const ZERO_FIELD_0: usize = 5;

pub const ZERO_FIELD_1: usize = 6;

pub const ZERO_FIELD_2: usize = 7;

pub const MORE_ZEROS_FIELD: usize = 8;

// "the slave count, 0 to 32", "longer than 32,768 bytes"; "the limits are 64 slaves and 65,536 bytes": 16 slaves and 16,384 bytes for each
// byte of an offset.
pub const MOST_SLAVES_BY_WIDTH: usize = 16;

pub const LONGEST_BY_WIDTH: usize = 16384;

// The flag of a pending operation.
pub const PENDING: u8 = 1;

// "A table entry is 4 bytes: directory offset (2), file count (1), zero." Over the width an entry is two offsets. Behind a table entry's
// offset: the file count, the sleep byte, and the zeros that fill the entry up.
pub const ENTRY_OFFSETS: usize = 2;

pub const SLEEP_FIELD: usize = 1;

pub const TABLE_FILL_FIELD: usize = 2;

// The first slave's sleep byte: behind the header, an offset and a file count.
pub const SLEEP_BYTES: usize = HEADER_BYTES + SLEEP_FIELD;

pub const SLEEP_OFFSETS: usize = HEADER_OFFSETS + 1;

// "The zero at the end of a table entry becomes 0 awake or 1 asleep." (document 02, job 9)
pub const AWAKE: u8 = 0;

pub const ASLEEP: u8 = 1;

pub const MOST_SLEEP: usize = ASLEEP as usize;

// "A directory entry is 4 bytes: file number 0 to 63, strictly rising; record count r, 1 to 255; offset (2)."
pub const RECORD_COUNT_PLACE: usize = 1;

// Its offset is its second half; the zeros that fill the first half up stand behind the record count.
pub const FILL_PLACE: usize = 2;

pub const FILE_NUMBERS: usize = 64;

pub const LEAST_RECORD: usize = 1;

// The longest file of either edition: 65,536 bytes.
pub const LONGEST: usize = LONGEST_BY_WIDTH * WIDE_OFFSET_WIDTH;

// "A file is 4(r + 1) bytes, records 0x00 to r"
pub const RECORD_SIZE: usize = 4;

// "Records 1 and 2 of 0x3D are the physical name".
pub const PHYSICAL_NAME_PLACE: usize = RECORD_SIZE * RecordNumber::SERIES.0 as usize;

// "record 1 holds the new logical name in byte 2 and the logical name in byte 3; records 2 and 3 hold the comparison value IDCV"
pub const NEW_LOGICAL_NAME_PLACE: usize = RECORD_SIZE * RecordNumber::NAMES.0 as usize + 2;

pub const LOGICAL_NAME_PLACE: usize = RECORD_SIZE * RecordNumber::NAMES.0 as usize + 3;

pub const COMPARISON_VALUE_PLACE: usize = RECORD_SIZE * RecordNumber::COMPARISON_HIGH.0 as usize;

// "file 0x08 (configuration) with r at least 3 and file 0x3D (documentation, 000) with r at least 2".
pub const NEEDED_CONFIGURATION: u8 = 3;

pub const NEEDED_DOCUMENTATION: u8 = 2;
