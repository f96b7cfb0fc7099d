// A key as a lattice point: the last coordinate is minus the sum of those that are kept.
ghost use Rattle.std.specs.Prelude.{◌≡◌, ◌≤◌, length};
ghost use Rattle.whole.specs.Floor.{Divisor};
ghost use Rattle.lattice.specs.Limits.{most_d};
ghost use Rattle.table.specs.Sound.{good_key};
ghost use Rattle.soundness.specs.Inner.{good_coordinate};

use lattice::limits::FARTHEST_POINT;

// A coordinate that leaves this remainder on division by n and is near enough.
fn good_coordinate(c: i32, n: u32, remainder: u32) -> bool
    requires { Divisor n }
    ensures { result ≡ good_coordinate n remainder c }
{
    c.unsigned_abs() <= FARTHEST_POINT && whole::division::remainder_of(c, n) == remainder
}

// Each coordinate is tested before it is added, so the sum stays small.
pub fn good_key(key: &[i32]) -> bool
    requires { (1 ≤ length key.now) × (length key.now ≤ most_d) }
    ensures { result ≡ good_key (length key.now) key.now }
{
    let n = (key.len() as u32) + 1;
    let remainder = whole::division::remainder_of(key[0], n);
    let mut total: i32 = 0;
    for &c in key {
        if !good_coordinate(c, n, remainder) {
            return false;
        }
        total += c;
    }
    good_coordinate(-total, n, remainder)
}
