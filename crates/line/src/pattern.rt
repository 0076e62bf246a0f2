// The class of each nine-bit pattern of the line.
ghost use Rattle.std.specs.Prelude.{◌≡◌, ◌<◌};
ghost use Rattle.line.specs.Rules.Patterns.{pattern_on};
ghost use Rattle.line.specs.Inner.LineAnswers.{read_of};
ghost use Rattle.line.specs.Inner.Rows.{RowByRule};

use file::types::Refusal;

// "the byte in bits 7 to 0 and the parity bit in bit 8": patterns 0 to 511.
const LAST_PATTERN: u16 = 511;

// The table's rows, the patterns of each, and an entry's bits and how many numbers they can be.
const ROWS: usize = 16;

const ROW_PATTERNS: u16 = 32;

const ENTRY_BITS: u16 = 2;

const ENTRY_VALUES: u64 = 4;

#[derive(Clone, Copy, PartialEq, Eq)]
pub enum PatternClass {
    DataByte,
    Firework,
    Broken,
}

// "Each of the 512 patterns has an entry": two bits, 0 a data byte, 1 a firework, 2 broken. A row is the entries of 32 patterns, the first in the
// lowest bits. It is read from the right, and a digit is two patterns: 8 a data byte and then broken, 2 broken and then a data byte, 4 a data
// byte and then a firework, 1 a firework and then a data byte.
const CLASSES: [u64; ROWS] = [
    0x8228288228828228,
    0x2882822882282882,
    0x2882822882242882,
    0x8228288228828128,
    0x2882422882282882,
    0x8218288228828228,
    0x8228288228828228,
    0x2882822882282882,
    0x2882822882282882,
    0x8228288228828228,
    0x8228248228828228,
    0x2881822882282882,
    0x8228288228428228,
    0x2882822882281882,
    0x2882822882282882,
    0x8228288228828228,
];

// Each row by a number of its own, and the compiler makes the table read-only data; indexed by a variable it is laid out on the stack in each call.
fn row_at(row: u16) -> u64
    requires { row < 16 }
    ensures { RowByRule row result }
{
    match row {
        0 => CLASSES[0],
        1 => CLASSES[1],
        2 => CLASSES[2],
        3 => CLASSES[3],
        4 => CLASSES[4],
        5 => CLASSES[5],
        6 => CLASSES[6],
        7 => CLASSES[7],
        8 => CLASSES[8],
        9 => CLASSES[9],
        10 => CLASSES[10],
        11 => CLASSES[11],
        12 => CLASSES[12],
        13 => CLASSES[13],
        14 => CLASSES[14],
        _ => CLASSES[15],
    }
}

pub fn read_pattern(pattern: u16) -> Result<PatternClass, Refusal>
    ensures { read_of result ≡ pattern_on pattern }
{
    if LAST_PATTERN < pattern {
        return Err(Refusal::Pattern);
    }
    let row = row_at(pattern / ROW_PATTERNS);
    // An arm for each number, also for 3, which stands in no row: the compiler then compares nothing and shifts one constant.
    match (row >> (ENTRY_BITS * (pattern % ROW_PATTERNS))) % ENTRY_VALUES {
        0 => Ok(PatternClass::DataByte),
        1 => Ok(PatternClass::Firework),
        2 => Ok(PatternClass::Broken),
        _ => Ok(PatternClass::Broken),
    }
}
