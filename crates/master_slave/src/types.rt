// What a master-slave round is about.
use file::types::{FileNumber, LogicalName, Operation, RecordNumber};

// The slaves of a logical name, and a record of theirs.
#[derive(Clone, Copy)]
pub struct RecordAddress {
    pub name: LogicalName,
    pub number: FileNumber,
    pub record: RecordNumber,
}

// The four bytes of a data frame; of one that has none, 0.
#[derive(Clone, Copy)]
pub struct DataBytes {
    pub b0: u8,
    pub b1: u8,
    pub b2: u8,
    pub b3: u8,
}

impl DataBytes {
    pub const NONE: DataBytes = DataBytes {
        b0: 0,
        b1: 0,
        b2: 0,
        b3: 0,
    };
}

// A complete master-slave round: what its address frame asks for, and the data of a write.
#[derive(Clone, Copy)]
pub struct MasterSlaveRound {
    pub name: LogicalName,
    pub number: FileNumber,
    pub operation: Operation,
    pub record: RecordNumber,
    pub b0: u8,
    pub b1: u8,
    pub b2: u8,
    pub b3: u8,
}
