// A source added to a target: its rows poured, and its entries put behind the target's.
ghost use Rattle.std.specs.Prelude.{◌≡◌, ◌+◌, ◌*◌, take};
ghost use Rattle.whole.specs.Lists.{splice};
ghost use Rattle.table.specs.Pour.{pour};
ghost use Rattle.table.specs.Heads.{settings, table, table_in};
ghost use Rattle.book.specs.Heads.{HoldsBook};
ghost use Rattle.merge.specs.Source.{first_rows, RowsToPour, EntriesToPut};

use crate::source::pour_rows;
use book::writing::write_at;
use table::Head;

// The first entries of a source's book, so many, behind n entries of the target's.
fn put_entries(book: &mut [i32], d: usize, n: usize, source_book: &[i32], count: usize)
    requires { EntriesToPut d n book.old count source_book.now }
    ensures { book.new ≡ splice book.old ((d + 3) * n) (take ((d + 3) * count) source_book.now) }
{
    let width = d + 3;
    write_at(book, width * n, &source_book[..width * count]);
}

// Answers how many points are stored then.
pub fn add_source(
    head: Head,
    keys: &mut [i32],
    sums: &mut [i64],
    index: &mut [u16],
    book: &mut [i32],
    source: Head,
    source_keys: &[i32],
    source_sums: &[i64],
    source_book: &[i32],
) -> usize
    requires fact { let t = table head keys.old sums.old index.old in
        RowsToPour (settings head) t source_keys.now source_sums.now source.points }
    requires entries_to_put { EntriesToPut head.d head.readings book.old source.readings source_book.now }
    ensures { let rs = first_rows head.d source_keys.now source_sums.now source.points in
        let t = pour (settings head) (table_in head keys sums index) rs in
        let l = splice book.old ((head.d + 3) * head.readings) (take ((head.d + 3) * source.readings) source_book.now) in
        HoldsBook (record { table = t; room = head.room; book = l }) result keys.new sums.new index.new book.new }
{
    let points = pour_rows(
        head,
        keys,
        sums,
        index,
        source_keys,
        source_sums,
        source.points,
    );
    put_entries(book, head.d, head.readings, source_book, source.readings);
    points
}
