// The first two tests of a call: its settings, and the lengths of the slices that it is lent.
ghost use Rattle.std.specs.Prelude.{◌≡◌, ◌≤◌};
ghost use Rattle.lattice.specs.Limits.{most_d, most_C};
ghost use Rattle.table.specs.Calls.{ranged, fits_by};

use lattice::limits::{MOST_CAPACITY, MOST_D, MOST_FINENESS};

#[tactic(auto, unfolding(crate::specs::Calls::ranged))]
pub fn in_range(d: usize, fineness: u32, capacity: usize) -> bool
    ensures { result ≡ ranged (record { d = d; S = fineness; C = capacity }) }
{
    (1..=MOST_D).contains(&d)
        && (1..=MOST_FINENESS).contains(&fineness)
        && (1..=MOST_CAPACITY).contains(&capacity)
}

// Whether slices of so many keys, sums and index places are those of a table.
pub fn lengths_fit(d: usize, capacity: usize, keys: usize, sums: usize, index: usize) -> bool
    requires { (d ≤ most_d) × (capacity ≤ most_C) }
    ensures { result ≡ fits_by d capacity keys sums index }
{
    keys == d * capacity && sums == 2 * capacity && index == 2 * capacity
}
