// Parts of a line, put into lent bytes from a place on: bytes as they are, and numbers in decimal. Each function leaves
// every other byte as it was and returns the place past its part.
// Bytes and place are no struct: it would be no plainer, as each promise names both, before the call and after it.
ghost use Rattle.std.specs.Prelude.{[], ◌∷◌, ◌++◌, ◌+◌, ◌≤◌, ◌<◌, length};
ghost use Rattle.model.specs.Printed.{glyph, decimal};
ghost use Rattle.lines.specs.Puts.{Puts};

// Puts some bytes.
pub fn put(out: &mut [u8], at: usize, part: &[u8]) -> usize
    requires { at + length part.now ≤ length out.old }
    ensures { Puts out.old at part.now out.new result }
{
    let end = at + part.len();
    out[at..end].copy_from_slice(part);
    end
}

// Puts the digit of a number below 10.
fn put_digit(out: &mut [u8], at: usize, digit: u64) -> usize
    requires { (digit < 10) × (at < length out.old) }
    ensures { Puts out.old at (glyph digit ∷ []) out.new result }
{
    // a cast, since `From` does not narrow and `try_from` would test what is asked
    out[at] = b'0' + digit as u8;
    at + 1
}

// Puts a number in decimal: the digits of its tenth, and its last digit.
fn put_decimal(out: &mut [u8], at: usize, n: u64) -> usize
    requires { at + length (decimal n) ≤ length out.old }
    ensures { Puts out.old at (decimal n) out.new result }
{
    if n < 10 {
        return put_digit(out, at, n);
    }
    let next = put_decimal(out, at, n / 10);
    put_digit(out, next, n % 10)
}

// Puts a number, and the bytes after it.
pub(crate) fn put_field(out: &mut [u8], at: usize, n: u64, after: &[u8]) -> usize
    requires { at + length (decimal n ++ after.now) ≤ length out.old }
    ensures { Puts out.old at (decimal n ++ after.now) out.new result }
{
    let next = put_decimal(out, at, n);
    put(out, next, after)
}
