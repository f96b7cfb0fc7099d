// Entries written into a book.
ghost use Rattle.std.specs.Prelude.{◌≡◌, ◌∷◌, ◌+◌, ◌*◌, ◌≤◌, length};
ghost use Rattle.whole.specs.Lists.{splice};
ghost use Rattle.lattice.specs.Limits.{most_d, most_readings};

// Numbers copied into a book from a place on.
pub fn write_at(book: &mut [i32], start: usize, numbers: &[i32])
    requires { start + length numbers.now ≤ length book.old }
    ensures { book.new ≡ splice book.old start numbers.now }
{
    book[start..start + numbers.len()].copy_from_slice(numbers);
}

// Entry n: its number, then the reading's own numbers, position and value.
pub fn put_entry(book: &mut [i32], d: usize, n: usize, number: i32, reading: &[i32])
    requires d_le_most_d { (d ≤ most_d) × (n ≤ most_readings) }
    requires d_in_bounds { ((d + 3) * n + (d + 3) ≤ length book.old) × (length reading.now ≡ d + 2) }
    ensures { book.new ≡ splice book.old ((d + 3) * n) (number ∷ reading.now) }
{
    let start = (d + 3) * n;
    book[start] = number;
    write_at(book, start + 1, reading);
}
