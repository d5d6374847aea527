// How often one number holds another, counted up one by one, so that nothing divides. Each function is called by crates
// of this repository, which keep what it asks for.
#![tactic(auto)]

ghost use Rattle.std.specs.Prelude.{◌≡◌, ◌*◌, ◌/◌, ◌<◌, min};
ghost use Rattle.cases.specs.Limits.{longs};

// How often `amount` holds `size` whole. A loop, since the library does not divide.
pub fn whole(amount: usize, size: usize) -> usize
    requires { 0 < size }
    ensures { result ≡ amount / size }
{
    let mut left = amount;
    let mut n = 0;
    while size <= left {
        left -= size;
        n += 1;
    }
    n
}

// The same, or `most` if that is fewer: where there is more, nothing is counted.
pub fn up_to(amount: usize, size: usize, most: usize) -> usize
    requires { (0 < size) × (size * most < longs) }
    ensures { result ≡ min (amount / size) most }
{
    if size * most < amount {
        return most;
    }
    whole(amount, size)
}
