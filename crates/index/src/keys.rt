// Keys: whether two are equal.
ghost use Rattle.std.specs.Prelude.{◌≡◌};
ghost use Rattle.index.specs.Keys.{same};

// Pair by pair: `a == b` on slices ends in a call of the library that is never inlined, and then neither
// is the search; with it a call executed an eighth to a fifth more instructions.
pub fn same_key(a: &[i32], b: &[i32]) -> bool
    ensures { result ≡ same a.now b.now }
{
    a.len() == b.len() && a.iter().zip(b).all(|(x, y)| x == y)
}
