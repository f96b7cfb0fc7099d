// The book closes up over an entry that leaves it.
ghost use Rattle.std.specs.Prelude.{◌≡◌, ◌+◌, ◌*◌, ◌≤◌, ◌<◌, length};
ghost use Rattle.lattice.specs.Limits.{most_d, most_readings};
ghost use Rattle.book.specs.Withdraw.{closed};

// Entry j of n leaves the book. What stands behind the n entries is not touched.
pub fn close_up(book: &mut [i32], d: usize, n: usize, j: usize)
    requires { (d ≤ most_d) × (n ≤ most_readings) × (j < n) × ((d + 3) * n ≤ length book.old) }
    ensures { book.new ≡ closed d n j book.old }
{
    let width = d + 3;
    let start = width * j;
    let end = width * n;
    book.copy_within(start + width..end, start);
    book[end - width..end].fill(0);
}
