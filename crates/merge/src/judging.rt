// The refusals of a merge, in their order.
ghost use Rattle.std.specs.Prelude.{◌≡◌, ◌+◌, ◌≤◌};
ghost use Rattle.whole.specs.Lists.{tab};
ghost use Rattle.lattice.specs.Limits.{most_d, most_C, most_readings};
ghost use Rattle.lattice.specs.Refusals.{told};
ghost use Rattle.index.specs.Keys.{key_at};
ghost use Rattle.table.specs.Heads.{settings};
ghost use Rattle.table.specs.Pour.{news_in};
ghost use Rattle.book.specs.Calls.{all_fit, merge_refusal};
ghost use Rattle.book.specs.Heads.{booked};
ghost use Rattle.merge.specs.Refusals.{each_refusal, both_refusal, numbers_new};
ghost use Rattle.merge.specs.Source.{Comparable};

use crate::source::new_rows;
use book::settings::{in_range, lengths_fit};
use carried::is_carried;
use lattice::refusals::Refusal;
use numbers::none_met;
use table::Head;

// Whether four slices are those of the head.
fn slices_fit(head: Head, keys: &[i32], sums: &[i64], index: &[u16], book: &[i32]) -> bool
    requires { (head.d ≤ most_d) × (head.capacity ≤ most_C) × (head.room ≤ most_readings) }
    ensures { result ≡ all_fit (settings head) (booked head keys.now sums.now index.now book.now) }
{
    lengths_fit(
        head.d,
        head.capacity,
        head.room,
        keys.len(),
        sums.len(),
        index.len(),
        book.len(),
    )
}

// 1, 2 and 3, for each the target before the source.
fn each_refusal(
    head: Head,
    keys: &[i32],
    sums: &[i64],
    index: &[u16],
    book: &[i32],
    source: Head,
    source_keys: &[i32],
    source_sums: &[i64],
    source_index: &[u16],
    source_book: &[i32],
) -> Result<(), Refusal>
    ensures { let b = booked head keys.now sums.now index.now book.now in
        let s = booked source source_keys.now source_sums.now source_index.now source_book.now in
        told result ≡ each_refusal (settings head) b (settings source) s }
{
    if !in_range(head.d, head.fineness, head.capacity, head.room) {
        return Err(Refusal::SettingsOutOfRange);
    }
    if !in_range(source.d, source.fineness, source.capacity, source.room) {
        return Err(Refusal::SettingsOutOfRange);
    }
    if !slices_fit(head, keys, sums, index, book) {
        return Err(Refusal::OtherLength);
    }
    if !slices_fit(source, source_keys, source_sums, source_index, source_book) {
        return Err(Refusal::OtherLength);
    }
    if !is_carried(head, keys, sums, index, book) {
        return Err(Refusal::NotSound);
    }
    if !is_carried(source, source_keys, source_sums, source_index, source_book) {
        return Err(Refusal::NotSound);
    }
    Ok(())
}

// 9, 20, 7 and 8, of two tables that are sound with their books. Counting comes last: it takes a
// search for each row.
fn both_refusal(
    head: Head,
    keys: &[i32],
    index: &[u16],
    book: &[i32],
    source: Head,
    source_keys: &[i32],
    source_book: &[i32],
) -> Result<(), Refusal>
    requires { Comparable head keys.now index.now book.now source source_keys.now source_book.now }
    ensures { let new = numbers_new head.d head.readings book.now source.readings source_book.now in
        let n = head.readings + source.readings in
        let m = head.points + news_in (settings head) keys.now index.now (tab source.points (key_at source.d source_keys.now)) in
        told result ≡ both_refusal (settings head) head.room (settings source) new n m }
{
    if head.d != source.d {
        return Err(Refusal::SettingsDiffer);
    }
    if head.fineness != source.fineness {
        return Err(Refusal::SettingsDiffer);
    }
    if !none_met(book, head.d, head.readings, source_book, source.readings) {
        return Err(Refusal::NumberHeld);
    }
    if head.room < head.readings + source.readings {
        return Err(Refusal::TooManyReadings);
    }
    let count = new_rows(head, keys, index, source_keys, source.points);
    if head.capacity < head.points + count {
        return Err(Refusal::TooManyPoints);
    }
    Ok(())
}

// The first that is met.
pub fn merge_refusal(
    head: Head,
    keys: &[i32],
    sums: &[i64],
    index: &[u16],
    book: &[i32],
    source: Head,
    source_keys: &[i32],
    source_sums: &[i64],
    source_index: &[u16],
    source_book: &[i32],
) -> Result<(), Refusal>
    ensures { let b = booked head keys.now sums.now index.now book.now in
        let s = booked source source_keys.now source_sums.now source_index.now source_book.now in
        told result ≡ merge_refusal (settings head) b (settings source) s }
{
    each_refusal(
        head,
        keys,
        sums,
        index,
        book,
        source,
        source_keys,
        source_sums,
        source_index,
        source_book,
    )?;
    both_refusal(head, keys, index, book, source, source_keys, source_book)
}
