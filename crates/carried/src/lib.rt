// Whether a table is sound with its book, on lent memory that may hold anything. Refusals 1, 2 and 3
// of a call on a table with its book, which every such call makes first.
#![tactic(auto)]

ghost use Rattle.std.specs.Prelude.{◌≡◌, ◌+◌, ◌*◌, ◌≤◌, length};
ghost use Rattle.lattice.specs.Limits.{most_readings};
ghost use Rattle.lattice.specs.Refusals.{told};
ghost use Rattle.table.specs.Sound.{Ranged, Shape};
ghost use Rattle.table.specs.Heads.{settings, table};
ghost use Rattle.book.specs.Book.{sound_with_book};
ghost use Rattle.book.specs.Calls.{call_refusal};
ghost use Rattle.book.specs.Heads.{booked};

mod limits;

use crate::limits::keeps_limits;
use book::settings::{in_range, lengths_fit};
use lattice::refusals::Refusal;
use numbers::numbers_apart;
use soundness::is_sound;
use spread::sums_are_theirs;
use table::Head;

// The tests of the table come first: those of the book rest on them. That the readings keep the
// limits is known before they are spread.
pub fn is_carried(head: Head, keys: &[i32], sums: &[i64], index: &[u16], book: &[i32]) -> bool
    requires ranged { Ranged (settings head) }
    requires shape { Shape (settings head) (table head keys.now sums.now index.now) }
    requires room_le_most_readings { (head.room ≤ most_readings) × (length book.now ≡ (head.d + 3) * head.room) }
    ensures { result ≡ sound_with_book (settings head) (booked head keys.now sums.now index.now book.now) }
{
    if !is_sound(head, keys, sums, index) {
        return false;
    }
    if head.room < head.readings {
        return false;
    }
    if !keeps_limits(book, head.d, head.readings) {
        return false;
    }
    if !numbers_apart(book, head.d, head.readings) {
        return false;
    }
    sums_are_theirs(head, keys, sums, index, book)
}

// The first of refusals 1, 2 and 3 that is met. Where a call is lent more than
// the table and its book, `more` says whether that has its length too.
pub fn refusal_of(
    head: Head,
    keys: &[i32],
    sums: &[i64],
    index: &[u16],
    book: &[i32],
    more: bool,
) -> Result<(), Refusal>
    ensures { told result ≡ call_refusal (settings head) (booked head keys.now sums.now index.now book.now) more }
{
    if !in_range(head.d, head.fineness, head.capacity, head.room) {
        return Err(Refusal::SettingsOutOfRange);
    }
    if !lengths_fit(
        head.d,
        head.capacity,
        head.room,
        keys.len(),
        sums.len(),
        index.len(),
        book.len(),
    ) {
        return Err(Refusal::OtherLength);
    }
    if !more {
        return Err(Refusal::OtherLength);
    }
    if !is_carried(head, keys, sums, index, book) {
        return Err(Refusal::NotSound);
    }
    Ok(())
}
