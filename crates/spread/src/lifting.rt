// Rows added to the pairs of points that are stored, on a sheet in the place of the sums: the slots
// of an enclosing simplex one after the other. Nothing is appended; what is not stored is counted.
ghost use Rattle.std.specs.Prelude.{[], ◌∷◌, suc, ◌<◌};
ghost use Rattle.table.specs.Table.{Row};
ghost use Rattle.table.specs.Heads.{settings};
ghost use Rattle.shares.specs.Slots.{slot_rows, rows_to};
ghost use Rattle.spread.specs.Spreading.{LiftsIn};
ghost use Rattle.spread.specs.Inner.{RowToLift, SlotsToLift};

use pour::pair::raise_pair;
use shares::times;
use simplex::Simplex;
use table::Head;

// A row added to the point that has its key. Answers how many points are missing: 1 where none has
// the key, and the sheet stays as it is.
fn lift_row(
    head: Head,
    keys: &[i32],
    index: &[u16],
    sheet: &mut [i64],
    key: &[i32],
    mass: i64,
    value: i64,
) -> usize
    requires { (let row : Row = record { key = key.now; mass = mass; value = value } in
        RowToLift head.d head.capacity keys.now index.now sheet.old row) }
    ensures { (let row : Row = record { key = key.entry.now; mass = mass; value = value } in
        LiftsIn (settings head) keys index sheet (row ∷ []) result) }
{
    let place = index::search::search(keys, index, head.capacity, key);
    let entry = index[place];
    // A count from 1: the index is lent, and its 0 says that the place is empty.
    if entry == 0 {
        return 1;
    }
    raise_pair(sheet, usize::from(entry) - 1, mass, value);
    0
}

// A slot of weight 0 has no point, so none is missing.
fn lift_slot(
    head: Head,
    keys: &[i32],
    index: &[u16],
    sheet: &mut [i64],
    simplex: &Simplex,
    value: i32,
    slot: usize,
) -> usize
    requires slots_to_lift { SlotsToLift head.d head.capacity keys.now index.now sheet.old simplex.now.weights simplex.now.coords value 1 }
    requires slot_bound { slot < suc head.d }
    ensures { LiftsIn (settings head) keys index sheet (slot_rows head.d simplex.now.weights simplex.now.coords value slot) result }
{
    let Some(key) = simplex.key(head.d, slot) else {
        return 0;
    };
    let weight = simplex.weights[slot];
    let mass = i64::from(weight);
    let sum = times(weight, value);
    lift_row(head, keys, index, sheet, key, mass, sum)
}

// All slots, one after the other; answers how many of their points are missing.
pub fn lift_shares(
    head: Head,
    keys: &[i32],
    index: &[u16],
    sheet: &mut [i64],
    simplex: &Simplex,
    value: i32,
) -> usize
    requires { SlotsToLift head.d head.capacity keys.now index.now sheet.old simplex.now.weights simplex.now.coords value (suc head.d) }
    ensures { LiftsIn (settings head) keys index sheet (rows_to head.d simplex.now.weights simplex.now.coords value (suc head.d)) result }
{
    let n = head.d + 1;
    let mut missing = 0;
    for slot in 0..n {
        missing += lift_slot(head, keys, index, sheet, simplex, value, slot);
    }
    missing
}
