// "A file number, a record number and a logical name are never taken for one another" (document 01): a type for each. The operation.
// The refusals. And the layout's numbers that the layers above need.
ghost use Rattle.std.specs.Prelude.{◌≡◌};
ghost use Rattle.file.specs.Inner.Typed.{name_in_lem};
ghost use Rattle.file.specs.Inner.Refusals.{refusal_number};

#[derive(Clone, Copy, PartialEq, Eq, PartialOrd, Ord)]
pub struct FileNumber(pub u8);

// "file 0x08 (configuration)" and "file 0x3D (documentation, 000)"; "file number 0 to 63".
impl FileNumber {
    pub const CONFIGURATION: FileNumber = FileNumber(0x08);

    pub const DOCUMENTATION: FileNumber = FileNumber(0x3D);

    pub const LAST: FileNumber = FileNumber(63);
}

#[derive(Clone, Copy, PartialEq, Eq, PartialOrd, Ord)]
pub struct RecordNumber(pub u8);

// "Records 1 and 2 of 0x3D are the physical name: series number, then serial number"; of 0x08 "record 1 holds the new logical name in
// byte 2 and the logical name in byte 3; records 2 and 3 hold the comparison value IDCV"; "put the whole cluster to sleep by an execute of
// record 4 of 0x08, our choice of record" (document 02, job 9).
impl RecordNumber {
    pub const SERIES: RecordNumber = RecordNumber(1);

    pub const NAMES: RecordNumber = RecordNumber(1);

    pub const COMPARISON_HIGH: RecordNumber = RecordNumber(2);

    pub const COMPARISON_LOW: RecordNumber = RecordNumber(3);

    pub const SLEEP: RecordNumber = RecordNumber(4);
}

#[derive(Clone, Copy, PartialEq, Eq)]
pub struct LogicalName(pub u8);

// "Logical name 0xFF is "unnamed", 0x00 is broadcast."
impl LogicalName {
    pub const UNNAMED: LogicalName = LogicalName(0xFF);

    pub const BROADCAST: LogicalName = LogicalName(0x00);

    pub fn new(name: u8) -> LogicalName
        ensures { name_in_lem result ≡ name }
    {
        LogicalName(name)
    }
}

// Any byte can be handed to the frame writer, so an operation is a byte; the values that have a meaning are the constants.
#[derive(Clone, Copy, PartialEq, Eq)]
pub struct Operation(pub u8);

impl Operation {
    pub const READ: Operation = Operation(0);

    pub const WRITE: Operation = Operation(1);

    pub const EXECUTE: Operation = Operation(2);
}

// Why something is turned away: document 01's number ("Grounds for turning something away"), or document 02's.
#[derive(Clone, Copy, PartialEq, Eq)]
pub enum Refusal {
    Size = 1,
    Mark = 2,
    Edition = 3,
    Length = 4,
    Header = 5,
    Layout = 6,
    NeededFile = 7,
    PhysicalNames = 8,
    Buffer = 9,
    Firework = 10,
    FrameLength = 11,
    Check = 12,
    Operation = 13,
    BroadcastRead = 14,
    ListedName = 15,
    NameTwice = 16,
    RunPosition = 17,
    FileNumber = 18,
    // Document 02 from here on: "New numbers, all joining document 01's".
    Trace = 19,
    TwoSenders = 20,
    OwnerBuffer = 21,
    LogicalNames = 22,
    MultiplexedSend = 23,
    Summary = 24,
    EditionLimits = 25,
    ConversionBuffer = 26,
    Screen = 27,
    ScreenWaiting = 28,
    SharedName = 29,
    JoinedLimits = 30,
    Pattern = 31,
}

impl Refusal {
    // "A refusal returns its number".
    pub fn number(self) -> u8
        ensures { result ≡ refusal_number self }
    {
        self as u8
    }
}

// The slaves that an array has room for: the most of either edition.
pub const SLAVES_ROOM: usize = 64;

// Where the slaves keep 0x08 and 0x3D, in the order of the slave table: a slave's two places together, that of 0x08 first.
pub const PLACES_EACH: usize = 2;

// One pair more than 64 slaves need: of an array of 256 bytes each call would have the sixteen stores that clear it, a longer one is
// cleared by a call of memset.
pub const PLACES: usize = PLACES_EACH * (SLAVES_ROOM + 1);

pub type SlavePlaces = [u16; PLACES];
