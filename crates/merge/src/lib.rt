// Merging: a source table is read with its book, and each of its pairs is added to a target table in
// lent memory, its readings to the target's book, all or nothing. Both are judged before anything is
// written.
#![tactic(auto)]

ghost use Rattle.table.specs.Heads.{settings, head_told, told_beside};
ghost use Rattle.book.specs.Calls.{merge_refusal, after_merge};
ghost use Rattle.book.specs.Heads.{booked_in, AnswersBookIn, booked};

mod adding;
mod judging;
mod source;

use crate::adding::add_source;
use crate::judging::merge_refusal;
use table::{Head, Refused, with_counts};

// The head of the target with the source in it, or the first refusal that is met, with the head as given.
// Capacities may differ, and the rooms of the books.
pub fn merge(
    head: Head,
    keys: &mut [i32],
    sums: &mut [i64],
    index: &mut [u16],
    book: &mut [i32],
    source: Head,
    source_keys: &[i32],
    source_sums: &[i64],
    source_index: &[u16],
    source_book: &[i32],
) -> Result<Head, Refused>
    ensures { let c = settings head in
        let e = settings source in
        let b = booked_in head keys sums index book in
        let s = booked source source_keys.now source_sums.now source_index.now source_book.now in
        AnswersBookIn head (merge_refusal c b e s) (after_merge c b e s) (told_beside result) (head_told result) keys sums index book }
{
    let judged = merge_refusal(
        head,
        keys,
        sums,
        index,
        book,
        source,
        source_keys,
        source_sums,
        source_index,
        source_book,
    );
    if let Err(refusal) = judged {
        return Err(Refused { refusal, head });
    }
    let points = add_source(
        head,
        keys,
        sums,
        index,
        book,
        source,
        source_keys,
        source_sums,
        source_book,
    );
    Ok(with_counts(head, head.readings + source.readings, points))
}
