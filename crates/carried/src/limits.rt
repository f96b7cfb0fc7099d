// Whether the readings of a book keep the limits.
ghost use Rattle.std.specs.Prelude.{◌≡◌, ◌+◌, ◌*◌, ◌≤◌, length};
ghost use Rattle.whole.specs.Sum.{all};
ghost use Rattle.lattice.specs.Limits.{most_d, most_readings};
ghost use Rattle.book.specs.Book.{entry_of, keeps_limits};

use table::reading::own_refusal;

// 4, 5 and 6 of each of n entries. The numbers of an entry behind its first are a reading's own:
// position, then value.
pub fn keeps_limits(book: &[i32], d: usize, n: usize) -> bool
    requires { (d ≤ most_d) × (n ≤ most_readings) × ((d + 3) * n ≤ length book.now) }
    ensures { result ≡ all n (λ j. keeps_limits (entry_of d book.now j).reading) }
{
    let width = d + 3;
    book[..width * n]
        .chunks_exact(width)
        .all(|entry| own_refusal(d, &entry[1..]).is_ok())
}
