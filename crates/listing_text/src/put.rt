// Bytes, digits and lines put into a text.
ghost use Rattle.std.specs.Prelude.{◌≡◌, ◌+◌, ◌≤◌, ◌<◌, length};
ghost use Rattle.listing_text.specs.Rules.Text.{hex, decimal, field, name_line, totals_line, refused_line};
ghost use Rattle.listing_text.specs.Inner.Puts.{Puts, PutsAtMost};
ghost use Rattle.listing_text.specs.Rules.Text.{most_digits, line_size, totals_size};
ghost use Rattle.listing_text.specs.Inner.Puts.{refused_size};
ghost use Rattle.listing_text.specs.Rules.Text.{digit as Text·digit};

const DECIMAL_BASE: u64 = 10;

const HEX_BASE: u64 = 16;

// The bits of a hexadecimal digit.
const HEX_BITS: u64 = 4;

// "in two and sixteen hex digits".
const NAME_DIGITS: u64 = 2;

const PHYSICAL_DIGITS: u64 = 16;

// The decimal digits of a number of 64 bits.
const MOST_DIGITS: usize = 20;

// The bytes of the line of a name: its digits, two spaces and a newline.
pub const LINE_SIZE: usize = (NAME_DIGITS as usize) + (PHYSICAL_DIGITS as usize) + MOST_DIGITS + 3;

// The bytes of the line of totals: its words, three numbers and a newline.
pub const TOTALS_SIZE: usize = 6 + 10 + 8 + 3 * MOST_DIGITS + 1;

// In capitals.
#[tactic(auto, unfolding(crate::specs::Rules::Text::digit))]
fn digit(d: u64) -> u8
    requires { d < 16 }
    ensures { result ≡ Text·digit d }
{
    if d < DECIMAL_BASE {
        return b'0' + d as u8;
    }
    b'A' + (d - DECIMAL_BASE) as u8
}

// The text and the place that is reached in it stay two arguments: of a struct that holds the lent text, each method has to promise besides
// that it holds the same text still.
fn put_bytes(text: &mut [u8], at: usize, bytes: &[u8]) -> usize
    requires { at + length bytes.now ≤ length text.old }
    ensures { Puts bytes.now text.old at text.new result }
{
    let end = at + bytes.len();
    text[at..end].copy_from_slice(bytes);
    end
}

// The last digits of a number.
fn put_hex(text: &mut [u8], at: usize, digits: u64, value: u64) -> usize
    requires { (at + digits ≤ length text.old) × (digits ≤ 16) }
    ensures { PutsAtMost digits (hex digits value) text.old at text.new result }
{
    let mut place = at;
    for left in (0..digits).rev() {
        text[place] = digit((value >> (HEX_BITS * left)) % HEX_BASE);
        place = place + 1;
    }
    place
}

// A number in decimal: its digits but the last first.
fn put_decimal(text: &mut [u8], at: usize, value: u64) -> usize
    requires { at + most_digits ≤ length text.old }
    ensures { PutsAtMost most_digits (decimal value) text.old at text.new result }
{
    if value < DECIMAL_BASE {
        return put_bytes(text, at, &[digit(value)]);
    }
    let next = put_decimal(text, at, value / DECIMAL_BASE);
    put_bytes(text, next, &[digit(value % DECIMAL_BASE)])
}

// A number in decimal after a word.
fn put_field(text: &mut [u8], at: usize, word: &[u8], value: u64) -> usize
    requires { at + length word.now + most_digits ≤ length text.old }
    ensures { PutsAtMost (length word.now + most_digits) (field word.now value) text.old at text.new result }
{
    let start = put_bytes(text, at, word);
    put_decimal(text, start, value)
}

// The line of a name that was given.
pub fn put_name(text: &mut [u8], at: usize, name: u8, physical: u64, comparisons: u64) -> usize
    requires { at + line_size ≤ length text.old }
    ensures { PutsAtMost line_size (name_line name physical comparisons) text.old at text.new result }
{
    let name_end = put_hex(text, at, NAME_DIGITS, name as u64);
    let physical_start = put_bytes(text, name_end, b" ");
    let physical_end = put_hex(text, physical_start, PHYSICAL_DIGITS, physical);
    let comparisons_end = put_field(text, physical_end, b" ", comparisons);
    put_bytes(text, comparisons_end, b"\n")
}

// The line of totals.
pub fn put_totals(text: &mut [u8], at: usize, given: u64, comparisons: u64, rounds: u64) -> usize
    requires { at + totals_size ≤ length text.old }
    ensures { Puts (totals_line given comparisons rounds) text.old at text.new result }
{
    let given_end = put_field(text, at, b"named ", given);
    let comparisons_end = put_field(text, given_end, b" compares ", comparisons);
    let rounds_end = put_field(text, comparisons_end, b" rounds ", rounds);
    put_bytes(text, rounds_end, b"\n")
}

// The line of a refused file.
pub fn put_refused(text: &mut [u8], at: usize, reason: u8) -> usize
    requires { at + refused_size ≤ length text.old }
    ensures { Puts (refused_line reason) text.old at text.new result }
{
    let ground_end = put_field(text, at, b"refused ", reason as u64);
    put_bytes(text, ground_end, b"\n")
}
