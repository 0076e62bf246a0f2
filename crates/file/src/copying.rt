// Bytes copied to the front of a buffer.
ghost use Rattle.std.specs.Prelude.{◌≡◌, ◌≤◌, ◌++◌, length, take, drop};

// A part copied to the front of a buffer that has room for it; what is behind it stays. How many bytes it has. The loop is compiled to moves
// of many bytes.
pub fn copy(part: &[u8], buffer: &mut [u8]) -> usize
    requires { length part.now ≤ length buffer.old }
    ensures count { result ≡ length part.now }
    ensures copied { buffer.new ≡ take (length part.now) part.now ++ drop (length part.now) buffer.old }
{
    for done in 0..part.len() {
        buffer[done] = part[done];
    }
    part.len()
}
