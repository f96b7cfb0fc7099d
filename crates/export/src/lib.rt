// The calls for C and Rust, over plain numbers and slices, with the refusals as C is told them: by their
// numbers. A head passes as its six numbers, by value where a call only reads it and each behind a
// reference where the call hands a head back. The contracts are the calls' own, of the heads that the six
// numbers make. `export_c` has these functions as C calls them.
#![tactic(auto)]

ghost use Rattle.table.specs.Table.{Settings};
ghost use Rattle.table.specs.Heads.{head_of, settings};
ghost use Rattle.book.specs.Calls.{fresh_refusal, after_fresh, enter, merge_refusal, after_merge, withdraw_refusal, after_withdraw};
ghost use Rattle.book.specs.Heads.{booked_in, lent_in, AnswersBookIn, EntersBookIn, booked};
ghost use Rattle.listing.specs.Listing.{ListsIn};
ghost use Rattle.filter.specs.Filter.{FiltersIn};
ghost use Rattle.load.specs.Loading.{LoadsIn, load};
ghost use Rattle.report.specs.Report.{Reports};
ghost use Rattle.export.specs.Numbers.{head_from};

mod handing;

use crate::handing::handed_back;
use lattice::refusals::number_told;
use table::Head;

// Makes a fresh table of these settings. The readings and points told are 0, refused or not, whatever
// they were.
pub fn vimrothi_fresh(
    d: &mut usize,
    fineness: &mut u32,
    capacity: &mut usize,
    room: &mut usize,
    readings: &mut usize,
    points: &mut usize,
    keys: &mut [i32],
    sums: &mut [i64],
    index: &mut [u16],
    book: &mut [i32],
) -> u8
    ensures { (let c : Settings = record { d = d.entry.now; S = fineness.old; C = capacity.old } in
        let b = lent_in room.old keys sums index book in
        let after = head_from d.exit.now fineness.new capacity.new room.new readings.new points.new in
        AnswersBookIn (head_of c room.old) (fresh_refusal c b) (after_fresh c b) result after keys sums index book) }
{
    let fresh = book::fresh::fresh(*d, *fineness, *capacity, *room, keys, sums, index, book);
    let (number, made) = handed_back(fresh);
    *readings = made.readings;
    *points = made.points;
    number
}

// Enters a list of readings, each with its number, and tells how many were taken.
pub fn vimrothi_enter(
    d: &mut usize,
    fineness: &mut u32,
    capacity: &mut usize,
    room: &mut usize,
    readings: &mut usize,
    points: &mut usize,
    keys: &mut [i32],
    sums: &mut [i64],
    index: &mut [u16],
    book: &mut [i32],
    list: &[i32],
    taken: &mut usize,
) -> u8
    ensures { let head = head_from d.old fineness.old capacity.old room.old readings.old points.old in
        let b = booked_in head keys sums index book in
        let after = head_from d.new fineness.new capacity.new room.new readings.new points.new in
        EntersBookIn head (enter (settings head) b list.now) taken.new result after keys sums index book }
{
    let head = Head {
        d: *d,
        fineness: *fineness,
        capacity: *capacity,
        room: *room,
        readings: *readings,
        points: *points,
    };
    let entered = enter::enter(head, keys, sums, index, book, list);
    *readings = entered.head.readings;
    *points = entered.head.points;
    *taken = entered.taken;
    number_told(&entered.end)
}

// Adds a source table, which is only read, to a target table.
pub fn vimrothi_merge(
    d: &mut usize,
    fineness: &mut u32,
    capacity: &mut usize,
    room: &mut usize,
    readings: &mut usize,
    points: &mut usize,
    keys: &mut [i32],
    sums: &mut [i64],
    index: &mut [u16],
    book: &mut [i32],
    source_d: usize,
    source_fineness: u32,
    source_capacity: usize,
    source_room: usize,
    source_readings: usize,
    source_points: usize,
    source_keys: &[i32],
    source_sums: &[i64],
    source_index: &[u16],
    source_book: &[i32],
) -> u8
    ensures { let head = head_from d.old fineness.old capacity.old room.old readings.old points.old in
        let source = head_from source_d source_fineness source_capacity source_room source_readings source_points in
        let c = settings head in
        let e = settings source in
        let b = booked_in head keys sums index book in
        let s = booked source source_keys.now source_sums.now source_index.now source_book.now in
        let after = head_from d.new fineness.new capacity.new room.new readings.new points.new in
        AnswersBookIn head (merge_refusal c b e s) (after_merge c b e s) result after keys sums index book }
{
    let head = Head {
        d: *d,
        fineness: *fineness,
        capacity: *capacity,
        room: *room,
        readings: *readings,
        points: *points,
    };
    let source = Head {
        d: source_d,
        fineness: source_fineness,
        capacity: source_capacity,
        room: source_room,
        readings: source_readings,
        points: source_points,
    };
    let merged = merge::merge(
        head,
        keys,
        sums,
        index,
        book,
        source,
        source_keys,
        source_sums,
        source_index,
        source_book,
    );
    let (number, after) = handed_back(merged);
    *readings = after.readings;
    *points = after.points;
    number
}

// Takes back the reading that has this number.
pub fn vimrothi_withdraw(
    d: &mut usize,
    fineness: &mut u32,
    capacity: &mut usize,
    room: &mut usize,
    readings: &mut usize,
    points: &mut usize,
    keys: &mut [i32],
    sums: &mut [i64],
    index: &mut [u16],
    book: &mut [i32],
    number: i32,
) -> u8
    ensures { let head = head_from d.old fineness.old capacity.old room.old readings.old points.old in
        let c = settings head in
        let b = booked_in head keys sums index book in
        let after = head_from d.new fineness.new capacity.new room.new readings.new points.new in
        AnswersBookIn head (withdraw_refusal c b number) (after_withdraw c b number) result after keys sums index book }
{
    let head = Head {
        d: *d,
        fineness: *fineness,
        capacity: *capacity,
        room: *room,
        readings: *readings,
        points: *points,
    };
    let withdrawn = withdraw::withdraw(head, keys, sums, index, book, number);
    let (told, left) = handed_back(withdrawn);
    *readings = left.readings;
    *points = left.points;
    told
}

// Lists a table's points in the order of their keys.
pub fn vimrothi_list(
    d: usize,
    fineness: u32,
    capacity: usize,
    room: usize,
    readings: usize,
    points: usize,
    keys: &[i32],
    sums: &[i64],
    index: &[u16],
    book: &[i32],
    list: &mut [u16],
) -> u8
    ensures { let head = head_from d fineness capacity room readings points in
        ListsIn (settings head) (booked head keys.now sums.now index.now book.now) result list }
{
    let head = Head {
        d,
        fineness,
        capacity,
        room,
        readings,
        points,
    };
    let done = listing::list(head, keys, sums, index, book, list);
    number_told(&done)
}

// Answers queries over a table, which is only read.
pub fn vimrothi_filter(
    d: usize,
    fineness: u32,
    capacity: usize,
    room: usize,
    readings: usize,
    points: usize,
    keys: &[i32],
    sums: &[i64],
    index: &[u16],
    book: &[i32],
    first: &mut [i64],
    second: &mut [i64],
    queries: &[i32],
    values: &mut [i32],
    codes: &mut [u8],
) -> u8
    ensures { let head = head_from d fineness capacity room readings points in
        let b = booked head keys.now sums.now index.now book.now in
        FiltersIn (settings head) b queries.now result first second values codes }
{
    let head = Head {
        d,
        fineness,
        capacity,
        room,
        readings,
        points,
    };
    let done = filter::filter(
        head, keys, sums, index, book, first, second, queries, values, codes,
    );
    number_told(&done)
}

// Loads a log with a book of this room, and tells its length or the offset that it was refused at.
// What the head was before is not read.
pub fn vimrothi_load(
    log: &[u8],
    book_room: usize,
    d: &mut usize,
    fineness: &mut u32,
    capacity: &mut usize,
    room: &mut usize,
    readings: &mut usize,
    points: &mut usize,
    keys: &mut [i32],
    sums: &mut [i64],
    index: &mut [u16],
    book: &mut [i32],
    offset: &mut usize,
) -> u8
    ensures { let o = load log.now (lent_in book_room keys sums index book) in
        let after = head_from d.new fineness.new capacity.new room.new readings.new points.new in
        LoadsIn (head_of o.settings o.booked.room) o result offset.new after keys sums index book }
{
    let loaded = load::load(log, book_room, keys, sums, index, book);
    *d = loaded.head.d;
    *fineness = loaded.head.fineness;
    *capacity = loaded.head.capacity;
    *room = loaded.head.room;
    *readings = loaded.head.readings;
    *points = loaded.head.points;
    *offset = loaded.offset;
    number_told(&loaded.end)
}

// Writes what dyemap prints for a log, and answers how many bytes that is.
pub fn vimrothi_report(log: &[u8], out: &mut [u8]) -> usize
    ensures { Reports log.now out.old result out.new }
{
    report::report(log, out)
}
