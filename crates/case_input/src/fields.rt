// The fields of a line.
ghost use Rattle.std.specs.Prelude.{◌<◌};
ghost use Rattle.std.specs.Counts.{IsPrefixLen};

// A field by its number from 0; no bytes where the line has fewer.
fn field_of(line: &[u8], field: usize) -> &[u8] {
    line.split(|c| matches!(*c, b' ' | b',' | b'\n'))
        .nth(field)
        .unwrap_or(&[])
}

// Whether a line is of that kind, its field 0.
pub fn is(line: &[u8], kind: &[u8]) -> bool {
    field_of(line, 0) == kind
}

// Capitals alone, and 0 for what is no digit: `char::to_digit` takes small letters too.
fn digit(c: u8) -> u8
    ensures { result < 16 }
{
    match c {
        b'0'..=b'9' => c - b'0',
        b'A'..=b'F' => c - b'A' + 10,
        _ => 0,
    }
}

// A number of a buffer's bytes, all of them where it has fewer.
pub fn counted(n: usize, buffer: &[u8]) -> usize
    ensures { IsPrefixLen result buffer.now }
{
    n.min(buffer.len())
}

// Puts a field's bytes at the start of a buffer, and answers how many. No `Vec`: the buffer's length cuts the field, and `filled` shows
// what stands after it.
pub fn bytes_at(line: &[u8], field: usize, out: &mut [u8]) -> usize
    ensures { IsPrefixLen result out.new }
{
    let (pairs, _) = field_of(line, field).as_chunks::<2>();
    for (to, [high, low]) in out.iter_mut().zip(pairs) {
        *to = digit(*high) * 16 + digit(*low);
    }
    counted(pairs.len(), out)
}

// A number with one more decimal digit, 0 where that takes more than 64 bits.
fn with_digit(n: u64, c: u8) -> u64 {
    n.checked_mul(10)
        .and_then(|tens| tens.checked_add(u64::from(digit(c))))
        .unwrap_or(0)
}

pub fn number_at(line: &[u8], field: usize) -> u64 {
    field_of(line, field)
        .iter()
        .fold(0, |n, c| with_digit(n, *c))
}

// A field's number that is a byte.
pub fn byte_at(line: &[u8], field: usize) -> u8 {
    (number_at(line, field) % 256) as u8
}

// A field's number, as one of a buffer's bytes.
pub fn count_at(line: &[u8], field: usize, buffer: &[u8]) -> usize
    ensures { IsPrefixLen result buffer.now }
{
    counted(number_at(line, field) as usize, buffer)
}

// The file in field 1: its bytes, and after them the buffer's own up to the length in field 2, where that is more.
pub fn filled(line: &[u8], out: &mut [u8]) -> usize
    ensures { IsPrefixLen result out.new }
{
    let given = bytes_at(line, 1, out);
    given.max(count_at(line, 2, out))
}
