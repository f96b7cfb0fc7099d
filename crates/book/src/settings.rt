// The first two tests of a call: its settings with the room of the book, and the lengths of the four
// slices that it is lent.
ghost use Rattle.std.specs.Prelude.{◌≡◌, ◌&&◌, ◌+◌, ◌*◌, ◌≤◌, eqb};
ghost use Rattle.lattice.specs.Limits.{most_d, most_C, most_readings};
ghost use Rattle.table.specs.Calls.{ranged, fits_by};
ghost use Rattle.book.specs.Calls.{room_ranged};

use lattice::limits::MOST_READINGS;

// A book has room for 1 to 4,096 readings.
pub fn in_range(d: usize, fineness: u32, capacity: usize, room: usize) -> bool
    ensures { result ≡ (ranged (record { d = d; S = fineness; C = capacity }) && room_ranged room) }
{
    table::settings::in_range(d, fineness, capacity) && (1..=MOST_READINGS).contains(&room)
}

// Whether slices of so many keys, sums, index places and numbers of a book are those of a table with
// its book.
pub fn lengths_fit(
    d: usize,
    capacity: usize,
    room: usize,
    keys: usize,
    sums: usize,
    index: usize,
    book: usize,
) -> bool
    requires { (d ≤ most_d) × (capacity ≤ most_C) × (room ≤ most_readings) }
    ensures { result ≡ (fits_by d capacity keys sums index && eqb book ((d + 3) * room)) }
{
    table::settings::lengths_fit(d, capacity, keys, sums, index) && book == (d + 3) * room
}
