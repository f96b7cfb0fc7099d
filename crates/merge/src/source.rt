// The rows of a source, in its order: how many of them are new to a target, and pouring them into it.
ghost use Rattle.std.specs.Prelude.{◌≡◌};
ghost use Rattle.whole.specs.Lists.{tab};
ghost use Rattle.table.specs.Pour.{pour, news_in};
ghost use Rattle.table.specs.Heads.{settings, table, table_in, HoldsIn};
ghost use Rattle.index.specs.Keys.{key_at};
ghost use Rattle.index.specs.Search.{Searchable};
ghost use Rattle.merge.specs.Source.{first_rows, Stretches, RowsToPour};

use table::Head;

// Only the points that are new count.
pub fn new_rows(
    head: Head,
    keys: &[i32],
    index: &[u16],
    source_keys: &[i32],
    source_points: usize,
) -> usize
    requires searchable { Searchable head.d head.capacity keys.now index.now }
    requires stretches { Stretches head.d source_keys.now source_points }
    ensures { result ≡ news_in (settings head) keys.now index.now (tab source_points (key_at head.d source_keys.now)) }
{
    let mut count = 0;
    for key in source_keys[..head.d * source_points].chunks_exact(head.d) {
        count += pour::is_new(head, keys, index, key);
    }
    count
}

// All rows, one after the other; answers how many points are stored then.
pub fn pour_rows(
    head: Head,
    keys: &mut [i32],
    sums: &mut [i64],
    index: &mut [u16],
    source_keys: &[i32],
    source_sums: &[i64],
    source_points: usize,
) -> usize
    requires { let t = table head keys.old sums.old index.old in
        RowsToPour (settings head) t source_keys.now source_sums.now source_points }
    ensures { let t = table_in head keys sums index in
        let rs = first_rows head.d source_keys.now source_sums.now source_points in
        HoldsIn (pour (settings head) t rs) result keys sums index }
{
    let mut points = head.points;
    let stored = &source_keys[..head.d * source_points];
    let pairs = &source_sums[..2 * source_points];
    for (key, pair) in stored.chunks_exact(head.d).zip(pairs.chunks_exact(2)) {
        points = pour::add_row(head, points, keys, sums, index, key, pair[0], pair[1]);
    }
    points
}
