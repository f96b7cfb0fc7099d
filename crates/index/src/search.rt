// The search for a point: from its home place up, round the end to 0, to the first index place that
// is empty or names it.
ghost use Rattle.std.specs.Prelude.{◌≡◌, ◌<◌, length};
ghost use Rattle.index.specs.Keys.{key_at};
ghost use Rattle.index.specs.Search.{next, entry_at, search, Searchable};

use crate::home::home_of;
use crate::keys::same_key;

// The place after, round the end to 0.
fn next_place(at: usize, places: usize) -> usize
    requires { at < places }
    ensures { result ≡ next places at }
{
    let up = at + 1;
    if up == places {
        return 0;
    }
    up
}

// The place of the point that has the key, or else the empty place where the search for it ends. An
// empty place is somewhere in the index, so the walk ends without a count of its steps.
pub fn search(keys: &[i32], index: &[u16], capacity: usize, key: &[i32]) -> usize
    requires { Searchable (length key.now) capacity keys.now index.now }
    ensures { result ≡ search capacity (key_at (length key.now) keys.now) (entry_at index.now) key.now }
{
    let places = index.len();
    let d = key.len();
    let mut at = home_of(key, capacity);
    // A loop: the walk goes round the end, and a place that it comes to ends it, not a count.
    let found = loop {
        let e = index[at];
        if e == 0 {
            break at;
        }
        let i = usize::from(e) - 1;
        let a = d * i;
        let b = a + d;
        if same_key(&keys[a..b], key) {
            break at;
        }
        at = next_place(at, places);
    };
    found
}
