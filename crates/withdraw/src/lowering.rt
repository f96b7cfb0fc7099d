// A reading's weights subtracted from the sums of the table.
ghost use Rattle.std.specs.Prelude.{◌≡◌, ◌≤◌, length};
ghost use Rattle.table.specs.Reading.{reading_of, shares};
ghost use Rattle.table.specs.Heads.{settings, table};
ghost use Rattle.book.specs.Withdraw.{lowered};
ghost use Rattle.withdraw.specs.Inner.{BoundedTo, TakenOff, Lowerable};

use lattice::limits::MOST_CAPACITY;
use spread::spread_reading;
use table::Head;

// The numbers of a sheet, subtracted.
fn take_off(sums: &mut [i64], sheet: &[i64])
    requires { (length sheet.now ≤ length sums.old) × BoundedTo (length sheet.now) sums.old × BoundedTo (length sheet.now) sheet.now }
    ensures { TakenOff (length sheet.now) sums.old sheet.now sums.new }
{
    for (i, x) in sheet.iter().enumerate() {
        sums[i] -= *x;
    }
}

// What the reading, of d + 2 numbers, gives to each point is put on a sheet of the function's own, as
// it was when it was entered, and subtracted.
pub fn lower(head: Head, keys: &[i32], sums: &mut [i64], index: &[u16], reading: &[i32])
    requires { Lowerable (settings head) (table head keys.now sums.old index.now) reading.now }
    ensures { let t = table head keys.now sums.old index.now in
        sums.new ≡ (lowered (settings head) t (shares head.d head.fineness (reading_of head.d reading.now))).sums }
{
    let mut sheet = [0i64; 2 * MOST_CAPACITY];
    spread_reading(head, keys, index, &mut sheet, reading);
    take_off(sums, &sheet[..2 * head.points]);
}
