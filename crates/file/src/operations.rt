// PB2: "file number in the six high bits, operation in the two low". And the two tests of an operation.
ghost use Rattle.std.specs.Prelude.{◌≡◌};
ghost use Rattle.file.specs.Rules.Bytes.{Byte};
ghost use Rattle.file.specs.Rules.Cluster.{file_number_of, operation_of, pb2_of, no_operation, broadcast_read};
ghost use Rattle.file.specs.Inner.Typed.{file_in, name_in_lem, operation_in};

use crate::types::{FileNumber, LogicalName, Operation};

const OPERATION_VALUES: u8 = 4;

pub fn file_number_of(pb2: u8) -> FileNumber
    ensures { file_in result ≡ file_number_of pb2 }
{
    FileNumber(pb2 / OPERATION_VALUES)
}

pub fn operation_of(pb2: u8) -> Operation
    ensures { operation_in result ≡ operation_of pb2 }
{
    Operation(pb2 % OPERATION_VALUES)
}

#[tactic(auto, unfolding(crate::specs::Rules::Cluster::pb2_of))]
pub fn pb2_of(file: FileNumber, operation: Operation) -> u8
    requires { Byte (pb2_of (file_in file) (operation_in operation)) }
    ensures { result ≡ pb2_of (file_in file) (operation_in operation) }
{
    OPERATION_VALUES * file.0 + operation.0
}

// Operation 3, or any above it: the bytes are compared, since an operation has no order of its own.
#[tactic(auto, unfolding(crate::specs::Rules::Cluster::no_operation))]
pub fn is_no_operation(operation: Operation) -> bool
    ensures { result ≡ no_operation (operation_in operation) }
{
    Operation::EXECUTE.0 < operation.0
}

#[tactic(auto, unfolding(crate::specs::Rules::Cluster::broadcast_read, crate::specs::Rules::Order::both))]
pub fn is_broadcast_read(operation: Operation, name: LogicalName) -> bool
    ensures { result ≡ broadcast_read (operation_in operation) (name_in_lem name) }
{
    operation == Operation::READ && name == LogicalName::BROADCAST
}
