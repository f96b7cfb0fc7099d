// The pair that a sheet has for a point.
ghost use Rattle.std.specs.Prelude.{◌≡◌, length};
ghost use Rattle.table.specs.Heads.{settings, table};
ghost use Rattle.blur.specs.Inner.{Readable, PairFound};

use table::Head;

// The two numbers of a stored point.
#[derive(Clone, Copy)]
pub struct Pair {
    pub mass: i64,
    pub value: i64,
}

// The pair of the point that has the key, found by the table's search; none where it is not stored.
pub fn pair_of(head: Head, keys: &[i32], index: &[u16], sheet: &[i64], key: &[i32]) -> Option<Pair>
    requires readable { Readable (settings head) (table head keys.now sheet.now index.now) }
    requires key_len { length key.now ≡ head.d }
    ensures { let t = table head keys.now sheet.now index.now in
        PairFound (settings head) t key.now result }
{
    let place = index::search::search(keys, index, head.capacity, key);
    let entry = index[place];
    if entry == 0 {
        return None;
    }
    let a = 2 * (usize::from(entry) - 1);
    let b = a + 1;
    Some(Pair {
        mass: sheet[a],
        value: sheet[b],
    })
}
