// The entry of the book that has a number.
ghost use Rattle.std.specs.Prelude.{◌≡◌, ◌+◌, ◌*◌, ◌≤◌, ◌<◌, length, IfSome};
ghost use Rattle.lattice.specs.Limits.{most_d, most_readings};
ghost use Rattle.book.specs.Book.{number_at};
ghost use Rattle.book.specs.Withdraw.{entry_with};
ghost use Rattle.withdraw.specs.Inner.{counted};

// One number is sought, so an index of them all would cost more than this walk.
pub fn entry_with(book: &[i32], d: usize, n: usize, number: i32) -> Option<usize>
    requires { (d ≤ most_d) × (n ≤ most_readings) × ((d + 3) * n ≤ length book.now) }
    ensures which { counted result ≡ entry_with n (number_at d book.now) number }
    ensures inside { IfSome result (λ j. j < n) }
{
    let width = d + 3;
    book[..width * n]
        .chunks_exact(width)
        .rposition(|entry| entry.starts_with(&[number]))
}
