// The enclosing simplex of a position: its points of weight above 0, a slot for each remainder.
#![tactic(auto)]

ghost use Rattle.std.specs.Prelude.{◌≡◌, ◌*◌, ◌≤◌, ◌<◌, length, get_or, take, drop, MatchOption};
ghost use Rattle.lattice.specs.Limits.{most_d, most_coords};
ghost use Rattle.simplex.specs.Inner.{Span, point_of};
ghost use Rattle.simplex.specs.Slots.{Placed, Encloses};

mod corner;
mod split;

use crate::corner::{corner_of, point_at};
use crate::split::{Splits, put_splits};
use lattice::limits::MOST_COORDS;

// All numbers of the slots: six coordinates for each of six remainders.
pub const SLOT_NUMBERS: usize = MOST_COORDS * MOST_COORDS;

// Slot k is the point that leaves remainder k: its weight, 0 where there is none, and its
// coordinates from MOST_COORDS * k on. What a slot does not use is 0.
#[derive(Clone, Copy)]
pub struct Simplex {
    pub weights: [u32; MOST_COORDS],
    pub coords: [i32; SLOT_NUMBERS],
}

impl Simplex {
    // The key of the point in a slot: its first d coordinates. A slot of weight 0 has no point.
    pub fn key(&self, d: usize, slot: usize) -> Option<&[i32]>
        requires { (d ≤ most_d) × (slot < most_coords) }
        ensures { MatchOption result (get_or self.now.weights slot 0 ≡ 0) (λ key. (0 < get_or self.now.weights slot 0) × (key.now ≡ take d (drop (most_coords * slot) self.now.coords))) }
    {
        if self.weights[slot] == 0 {
            return None;
        }
        let start = MOST_COORDS * slot;
        Some(&self.coords[start..start + d])
    }
}

// The point n * z[i] - total into its slot.
fn put_point(point: &mut [i32], z: &[i32], total: i32, n: usize)
    requires six { length point.old ≡ most_coords }
    requires span { Span n z.now total }
    ensures { point.new ≡ point_of n z.now total }
{
    for (i, c) in point.iter_mut().enumerate() {
        *c = point_at(z, total, n, i);
    }
}

// The points of weight above 0 for the d + 1 coordinates x at this fineness: the corner of each
// place, in the slot of its remainder. Places whose coordinates leave equal remainders by W have the
// same corner, which is then put there again.
pub fn enclose(x: &[i32], d: usize, fineness: u32) -> Simplex
    requires { Placed d fineness x.now }
    ensures { Encloses d fineness x.now result.weights result.coords }
{
    let n = d + 1;
    let w = (n as u32) * fineness;
    let mut splits = Splits {
        floors: [0i32; MOST_COORDS],
        rests: [0i32; MOST_COORDS],
    };
    put_splits(x, w, &mut splits);
    let mut z = [0i32; MOST_COORDS];
    let mut simplex = Simplex {
        weights: [0u32; MOST_COORDS],
        coords: [0i32; SLOT_NUMBERS],
    };
    for j in 0..n {
        let c = corner_of(&splits, n, w, j, &mut z);
        let k = c.slot;
        simplex.weights[k] = c.weight;
        let start = MOST_COORDS * k;
        put_point(
            &mut simplex.coords[start..start + MOST_COORDS],
            &z,
            c.total,
            n,
        );
    }
    simplex
}
