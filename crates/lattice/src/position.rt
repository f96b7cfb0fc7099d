// Judging a position: document 01's refusals 4 and 5, in that order.
ghost use Rattle.std.specs.Prelude.{◌≡◌, ◌≤◌, length};
ghost use Rattle.whole.specs.Sum.{sum};
ghost use Rattle.whole.specs.Lists.{at};
ghost use Rattle.lattice.specs.Limits.{most_coords};
ghost use Rattle.lattice.specs.Position.{all_near, judged};
ghost use Rattle.lattice.specs.Refusals.{told};

use crate::limits::FARTHEST;
use crate::refusals::Refusal;

fn all_near(x: &[i32]) -> bool
    ensures { result ≡ all_near x.now }
{
    for c in x {
        if FARTHEST < c.unsigned_abs() {
            return false;
        }
    }
    true
}

// In 64 bits, so that no sum of six coordinates wraps, however far each is.
fn coordinate_sum(x: &[i32]) -> i64
    requires { length x.now ≤ most_coords }
    ensures { result ≡ sum (length x.now) (at x.now) }
{
    let mut total = 0;
    for c in x {
        total += i64::from(*c);
    }
    total
}

// Whether the coordinates are a position, or the first refusal that is met.
pub fn judge(x: &[i32]) -> Result<(), Refusal>
    requires { length x.now ≤ most_coords }
    ensures { told result ≡ judged x.now }
{
    if !all_near(x) {
        return Err(Refusal::CoordinateBeyond);
    }
    if coordinate_sum(x) != 0 {
        return Err(Refusal::SumNotZero);
    }
    Ok(())
}
