// Numbers of the case file, least significant byte first: 16 and 32 bits wide, read at an offset, and mills by their
// bits.
ghost use Rattle.std.specs.Prelude.{◌≡◌, ◌+◌, ◌≤◌, length, get_or};
ghost use Rattle.cases.specs.Layout.{number_at, signed};

use quantities::Mills;

// The byte at an offset; 0 past the end.
pub(crate) fn byte(part: &[u8], at: usize) -> u8
    ensures { result ≡ get_or part.now at 0 }
{
    part.get(at).copied().unwrap_or(0)
}

// The 16-bit number at an offset.
pub(crate) fn word(part: &[u8], at: usize) -> u16
    requires { at + 2 ≤ length part.now }
    ensures { result ≡ number_at part.now at 2 }
{
    u16::from_le_bytes([part[at], part[at + 1]])
}

// The 16-bit number at the front of a part; a byte that the part lacks is 0.
pub(crate) fn front(part: &[u8]) -> u16
    ensures { result ≡ number_at part.now 0 2 }
{
    u16::from_le_bytes([byte(part, 0), byte(part, 1)])
}

// The 32-bit number at an offset.
pub(crate) fn long(part: &[u8], at: usize) -> u32
    requires { at + 4 ≤ length part.now }
    ensures { result ≡ number_at part.now at 4 }
{
    u32::from_le_bytes([part[at], part[at + 1], part[at + 2], part[at + 3]])
}

// The mills that 32 bits hold: those of a number with a sign.
fn signed(bits: u32) -> Mills
    ensures { result.0 ≡ signed bits }
{
    Mills(bits.cast_signed())
}

// The mills at an offset, in four bytes and, without a sign, in two.
pub(crate) fn mills(part: &[u8], at: usize) -> Mills
    requires { at + 4 ≤ length part.now }
    ensures { result.0 ≡ signed (number_at part.now at 4) }
{
    signed(long(part, at))
}

pub(crate) fn short_mills(part: &[u8], at: usize) -> Mills
    requires { at + 2 ≤ length part.now }
    ensures { result.0 ≡ signed (number_at part.now at 2) }
{
    signed(u32::from(word(part, at)))
}
