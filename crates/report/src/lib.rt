// The report: what dyemap prints for a log, rendered into a lent buffer. What is printed stands in
// specs/; that a buffer of ROOM bytes suffices for every log, in proofs/.
#![tactic(auto)]

ghost use Rattle.std.specs.Prelude.{length};
ghost use Rattle.table.specs.Calls.{lent};
ghost use Rattle.table.specs.Heads.{settings, table};
ghost use Rattle.book.specs.Heads.{lent_in};
ghost use Rattle.text.specs.Text.{Written};
ghost use Rattle.load.specs.Loading.{load};
ghost use Rattle.report.specs.Report.{book_room, Reports, table_text, loaded_text, settled_text};
ghost use Rattle.report.specs.Inner.{TableRoom, LentFor, Settled};

mod answers;
mod lines;
mod opening;
mod points;

use crate::answers::put_answers;
use crate::lines::{put_head, put_refused};
use crate::opening::opening_of;
use crate::points::put_points;
use lattice::limits::MOST_D;
use lattice::refusals::Refusal;
use load::load;
use table::Head;

// The program refuses a longer log, and one of more points.
pub const MOST_BYTES: usize = 16384;

pub const MOST_LOG_CAPACITY: usize = 512;

// The book of the program's table has room for so many readings: more than a log of MOST_BYTES has.
pub const BOOK_ROOM: usize = 2048;

// A buffer of so many bytes suffices for the report of every log.
pub const ROOM: usize = 200000;

// HEAD, the points, and the answers to the log's queries.
fn put_table(
    out: &mut [u8],
    head: Head,
    keys: &[i32],
    sums: &[i64],
    index: &[u16],
    log: &[u8],
) -> usize
    requires { TableRoom (settings head) (table head keys.now sums.now index.now) log.now (length out.old) }
    ensures { let t = table head keys.now sums.now index.now in
        Written out.old 0 (table_text (settings head) t log.now) result out.new }
{
    let after_head = put_head(out, head);
    let after_points = put_points(out, after_head, head, keys, sums, index);
    put_answers(out, after_points, head, keys, sums, index, log)
}

// The log loaded into slices of the lengths that its settings give, and its table or its refusal
// printed.
fn put_loaded(
    out: &mut [u8],
    log: &[u8],
    keys: &mut [i32],
    sums: &mut [i64],
    index: &mut [u16],
    book: &mut [i32],
) -> usize
    requires { LentFor log.now (record { table = lent keys.old sums.old index.old; room = book_room; book = book.old }) (length out.old) }
    ensures { let o = load log.now (lent_in book_room keys sums index book) in
        Written out.old 0 (loaded_text log.now o.number o) result out.new }
{
    let loaded = load(log, BOOK_ROOM, keys, sums, index, book);
    match loaded.end {
        Ok(()) => put_table(out, loaded.head, keys, sums, index, log),
        Err(refusal) => put_refused(out, refusal, loaded.offset),
    }
}

// The log in memory of the program's own.
fn put_log(out: &mut [u8], log: &[u8], d: usize, capacity: usize) -> usize
    requires { Settled log.now d capacity (length out.old) }
    ensures { Written out.old 0 (settled_text 0 log.now) result out.new }
{
    let mut keys = [0i32; MOST_D * MOST_LOG_CAPACITY];
    let mut sums = [0i64; 2 * MOST_LOG_CAPACITY];
    let mut index = [0u16; 2 * MOST_LOG_CAPACITY];
    let mut book = [0i32; (MOST_D + 3) * BOOK_ROOM];
    let places = 2 * capacity;
    put_loaded(
        out,
        log,
        &mut keys[..d * capacity],
        &mut sums[..places],
        &mut index[..places],
        &mut book[..(d + 3) * BOOK_ROOM],
    )
}

// Writes the report of a log at the start of a buffer of ROOM bytes or more, and answers how many
// bytes it is. A shorter buffer is left as it is, and the answer is 0, as C is told it; no report is so
// short.
pub fn report(log: &[u8], out: &mut [u8]) -> usize
    ensures { Reports log.now out.old result out.new }
{
    if out.len() < ROOM {
        return 0;
    }
    if MOST_BYTES < log.len() {
        return put_refused(out, Refusal::ProgramLimit, MOST_BYTES);
    }
    match opening_of(log) {
        Ok(opening) => put_log(out, log, opening.d, opening.capacity),
        Err(refusal) => put_refused(out, refusal, 0),
    }
}
