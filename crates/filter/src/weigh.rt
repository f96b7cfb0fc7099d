// The sums at a query position: the points of its enclosing simplex, slot by slot, each found by the
// table's search and weighed.
ghost use Rattle.std.specs.Prelude.{◌≡◌, suc, ◌≤◌, ◌<◌, ◌*ℤ◌};
ghost use Rattle.whole.specs.Size.{Abs≤};
ghost use Rattle.whole.specs.Lists.{collect};
ghost use Rattle.lattice.specs.Limits.{most_W};
ghost use Rattle.simplex.specs.Slots.{slot};
ghost use Rattle.table.specs.Heads.{settings, table};
ghost use Rattle.blur.specs.Inner.{most_blurred};
ghost use Rattle.filter.specs.Inner.{WeighedIs, Weighable};

use blur::pair::pair_of;
use simplex::Simplex;
use table::Head;

// The weights of the points that are stored, and weight times mass and weight times value sum, summed
// over them.
#[derive(Clone, Copy)]
pub struct Weighed {
    pub weight: i64,
    pub mass: i64,
    pub value: i64,
}

const NOTHING: Weighed = Weighed {
    weight: 0,
    mass: 0,
    value: 0,
};

// What the point of slot k adds: nothing where it has weight 0, and nothing where it is not stored.
fn weigh_slot(
    head: Head,
    keys: &[i32],
    index: &[u16],
    sheet: &[i64],
    simplex: &Simplex,
    k: usize,
) -> Weighed
    requires weighable { Weighable (settings head) (table head keys.now sheet.now index.now) simplex.now.weights simplex.now.coords }
    requires k_bound { k < suc head.d }
    ensures { let t = table head keys.now sheet.now index.now in
        WeighedIs (settings head) t (slot head.d simplex.now.weights simplex.now.coords k) result.weight result.mass result.value }
{
    let Some(key) = simplex.key(head.d, k) else {
        return NOTHING;
    };
    let Some(pair) = pair_of(head, keys, index, sheet, key) else {
        return NOTHING;
    };
    let weight = i64::from(simplex.weights[k]);
    Weighed {
        weight,
        mass: weight * pair.mass,
        value: weight * pair.value,
    }
}

// All slots, one after the other.
pub fn weigh(head: Head, keys: &[i32], index: &[u16], sheet: &[i64], simplex: &Simplex) -> Weighed
    requires { Weighable (settings head) (table head keys.now sheet.now index.now) simplex.now.weights simplex.now.coords }
    ensures { let t = table head keys.now sheet.now index.now in
        WeighedIs (settings head) t (collect (suc head.d) (slot head.d simplex.now.weights simplex.now.coords)) result.weight result.mass result.value }
{
    let n = head.d + 1;
    let mut sums = NOTHING;
    for k in 0..n {
        let more = weigh_slot(head, keys, index, sheet, simplex, k);
        sums.weight += more.weight;
        sums.mass += more.mass;
        sums.value += more.value;
    }
    sums
}
