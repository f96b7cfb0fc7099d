// The index of entering the points afresh by number.
ghost use Rattle.std.specs.Prelude.{◌≡◌, suc, set};
ghost use Rattle.index.specs.Keys.{key_at};
ghost use Rattle.index.specs.Search.{entry_at, search};
ghost use Rattle.book.specs.Withdraw.{afresh};
ghost use Rattle.withdraw.specs.Inner.{Nameable, Renameable};

// Point i takes the empty place at which the search for its key ends.
fn name_point(keys: &[i32], index: &mut [u16], d: usize, capacity: usize, i: usize)
    requires { Nameable d capacity i keys.now index.old }
    ensures { let key = key_at d keys.now in
        let place = search capacity key (entry_at index.old) (key i) in
        index.new ≡ set index.old place (suc i) }
{
    let a = d * i;
    let b = a + d;
    let place = index::search::search(keys, index, capacity, &keys[a..b]);
    index[place] = (i + 1) as u16;
}

// All points, one after the other. Where points have left, numbers have moved: no place of the old
// index is kept.
pub fn name_afresh(keys: &[i32], index: &mut [u16], d: usize, capacity: usize, points: usize)
    requires { Renameable d capacity points keys.now index.old }
    ensures { index.new ≡ afresh capacity (key_at d keys.now) points }
{
    index.fill(0);
    for i in 0..points {
        name_point(keys, index, d, capacity, i);
    }
}
