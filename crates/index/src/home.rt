// The home place of a key: its hash modulo the number of index places.
ghost use Rattle.std.specs.Prelude.{◌≡◌, ◌≤◌};
ghost use Rattle.lattice.specs.Limits.{most_C};
ghost use Rattle.index.specs.Keys.{hash, home};

use whole::words::multiply;

// The number that a hash is multiplied by.
pub const FACTOR: u32 = 2531011;

// Each coordinate in order is added modulo 2^32, then the sum is multiplied modulo 2^32.
#[tactic(auto, unfolding(crate::specs::Keys::hash, whole::specs::Word::word))]
fn hash_of(key: &[i32]) -> u32
    ensures { result ≡ hash 0 key.now }
{
    let mut h: u32 = 0;
    for c in key {
        let sum = h.wrapping_add(c.cast_unsigned());
        h = multiply(sum, FACTOR);
    }
    h
}

// The hash modulo 2·C: an index has two places for each point that there is room for.
#[tactic(auto, unfolding(crate::specs::Keys::home))]
pub fn home_of(key: &[i32], capacity: usize) -> usize
    requires { (1 ≤ capacity) × (capacity ≤ most_C) }
    ensures { result ≡ home capacity key.now }
{
    let h = hash_of(key);
    (h as usize) % (2 * capacity)
}
