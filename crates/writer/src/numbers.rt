// Numbers of the case file, least significant byte first: 16 and 32 bits wide, and mills by their bits, written at an
// offset. The bytes and the place stand beside each other, since a definition of the file speaks of the place.
ghost use Rattle.std.specs.Prelude.{◌≡◌, ◌+◌, ◌≤◌, length};
ghost use Rattle.std.proofs.lemmas.List.Edits.{sets};
ghost use Rattle.cases.specs.Layout.{bytes, unsigned};

use quantities::Mills;

// Writes a 16-bit number at an offset.
pub(crate) fn put_word(out: &mut [u8], at: usize, x: u16)
    requires { at + 2 ≤ length out.old }
    ensures { out.new ≡ sets out.old at (bytes 2 x) }
{
    out[at..at + 2].copy_from_slice(&x.to_le_bytes());
}

// Writes an amount of mills at an offset, in four bytes.
pub(crate) fn put_mills(out: &mut [u8], at: usize, mills: Mills)
    requires { at + 4 ≤ length out.old }
    ensures { out.new ≡ sets out.old at (bytes 4 (unsigned mills.0)) }
{
    out[at..at + 4].copy_from_slice(&mills.0.to_le_bytes());
}
