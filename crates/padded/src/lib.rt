// An array's first entries, with one value past them: the definition is cases' specs/Layout. For the crates of this
// repository.
#![tactic(auto)]

ghost use Rattle.std.specs.Prelude.{◌≡◌, ◌≤◌, get_or};
ghost use Rattle.cases.specs.Layout.{padded};

// The first n entries, and `rest` past them.
pub fn front<T: Copy, const N: usize>(all: &[T; N], n: usize, rest: T) -> [T; N]
    requires { n ≤ N }
    ensures { result ≡ padded rest (λ i. get_or all.now i rest) n N }
{
    let mut first = [rest; N];
    first[..n].copy_from_slice(&all[..n]);
    first
}
