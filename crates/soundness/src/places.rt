// The index of a table: its entries, and whether searching for each of the keys finds that same
// point.
ghost use Rattle.std.specs.Prelude.{◌≡◌, suc, length};
ghost use Rattle.index.specs.Keys.{key_at};
ghost use Rattle.index.specs.Search.{entry_at};
ghost use Rattle.index.specs.Indexed.{sparse, finding};
ghost use Rattle.soundness.specs.Inner.{is_found, Findable};

// Every entry is 0 to the number of points, and exactly that many are not 0.
pub fn index_is_sparse(index: &[u16], points: usize) -> bool
    ensures { result ≡ sparse (length index.now) points (entry_at index.now) }
{
    let mut named = 0;
    for e in index {
        if points < usize::from(*e) {
            return false;
        }
        named += usize::from(*e != 0);
    }
    named == points
}

// Whether the search for the key of point i ends at a place that names point i. It is compared in 16
// bits: an equality with the loop's own i + 1 would let the compiler go on from the entry read, and then
// each search would wait for the one before it.
fn finds(keys: &[i32], index: &[u16], d: usize, capacity: usize, i: usize) -> bool
    requires { Findable d capacity (suc i) keys.now index.now }
    ensures { result ≡ is_found d capacity keys.now index.now i }
{
    let a = d * i;
    let b = a + d;
    let p = index::search::search(keys, index, capacity, &keys[a..b]);
    let e = index[p];
    e == (i + 1) as u16
}

// The same for each of the points.
pub fn finds_all(keys: &[i32], index: &[u16], d: usize, capacity: usize, points: usize) -> bool
    requires { Findable d capacity points keys.now index.now }
    ensures { result ≡ finding capacity points (key_at d keys.now) (entry_at index.now) }
{
    (0..points).all(|i| finds(keys, index, d, capacity, i))
}
