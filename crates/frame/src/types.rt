// What an address frame says.
use file::types::{FileNumber, LogicalName, Operation, RecordNumber};

#[derive(Clone, Copy)]
pub struct AddressFrame {
    pub epoch: u8,
    pub name: LogicalName,
    pub file: FileNumber,
    pub operation: Operation,
    pub record: RecordNumber,
}
