// The calls on tables of dimension 1, with the readings of document 01's log and of its small numbers,
// each with a number.
use crate::print::print_numbers;
use book::fresh::fresh;
use enter::enter;
use lattice::refusals::number_told;
use listing::list;
use merge::merge;
use std::io;
use table::{Head, Refused};

// Point i: both coordinates, mass, value sum.
fn print_point(rt: &impl Print, keys: &[i32], sums: &[i64], i: usize) -> io::Result<()> {
    let (Some(key), Some(pair)) = (keys.get(i), sums.chunks_exact(2).nth(i)) else {
        return Ok(());
    };
    print!(rt; "POINT {key} {}", -i64::from(*key))?;
    print_numbers(rt, pair)?;
    println!(rt; "")
}

// HEAD: d, S, readings, points; then the points in listing order.
pub fn print_table(
    rt: &impl Print,
    head: Head,
    keys: &[i32],
    sums: &[i64],
    index: &[u16],
    book: &[i32],
    order: &mut [u16],
) -> io::Result<()> {
    if list(head, keys, sums, index, book, order).is_err() {
        return Ok(());
    }
    println!(rt;
        "HEAD {} {} {} {}",
        head.d, head.fineness, head.readings, head.points
    )?;
    for i in order.iter().take(head.points) {
        print_point(rt, keys, sums, usize::from(*i))?;
    }
    Ok(())
}

// All of a book, also past its last entry.
pub fn print_book(rt: &impl Print, book: &[i32]) -> io::Result<()> {
    print!(rt; "BOOK")?;
    print_numbers(rt, book)?;
    println!(rt; "")
}

// The number that a call tells, and the head that it hands back beside it.
pub fn handed_back(outcome: Result<Head, Refused>) -> (u8, Head) {
    match outcome {
        Ok(head) => (0, head),
        Err(refused) => (refused.refusal.number(), refused.head),
    }
}

// A list of readings entered into a fresh table with room for as many points as there are keys: how
// many were taken, and the number. The book has entries of 4 numbers.
pub fn enter_fresh(
    rt: &impl Print,
    fineness: u32,
    keys: &mut [i32],
    sums: &mut [i64],
    index: &mut [u16],
    book: &mut [i32],
    readings: &[i32],
) -> io::Result<Head> {
    let capacity = keys.len();
    let room = book.len() / 4;
    let (_, made) = handed_back(fresh(1, fineness, capacity, room, keys, sums, index, book));
    let entered = enter(made, keys, sums, index, book, readings);
    println!(rt; "TAKEN {} {}", entered.taken, number_told(&entered.end))?;
    Ok(entered.head)
}

// The same, and the table.
pub fn show_entered(rt: &impl Print, readings: &[i32], fineness: u32) -> io::Result<()> {
    let mut keys = [0i32; 8];
    let mut sums = [0i64; 16];
    let mut index = [0u16; 16];
    let mut book = [0i32; 8];
    let mut order = [0u16; 8];
    let head = enter_fresh(
        rt, fineness, &mut keys, &mut sums, &mut index, &mut book, readings,
    )?;
    print_table(rt, head, &keys, &sums, &index, &book, &mut order)
}

// A source of readings merged into a table, of another capacity: the number, and the table.
fn show_source_merged(
    rt: &impl Print,
    head: Head,
    keys: &mut [i32],
    sums: &mut [i64],
    index: &mut [u16],
    book: &mut [i32],
    order: &mut [u16],
    readings: &[i32],
) -> io::Result<()> {
    let mut source_keys = [0i32; 5];
    let mut source_sums = [0i64; 10];
    let mut source_index = [0u16; 10];
    let mut source_book = [0i32; 4];
    let source = enter_fresh(
        rt,
        head.fineness,
        &mut source_keys,
        &mut source_sums,
        &mut source_index,
        &mut source_book,
        readings,
    )?;
    let merged = merge(
        head,
        keys,
        sums,
        index,
        book,
        source,
        &source_keys,
        &source_sums,
        &source_index,
        &source_book,
    );
    let (number, after) = handed_back(merged);
    println!(rt; "MERGED {number}")?;
    print_table(rt, after, keys, sums, index, book, order)?;
    print_book(rt, book)
}

// Two lists, each in a table of its own, and the second table merged into the first.
pub fn show_merged(
    rt: &impl Print,
    readings: &[i32],
    others: &[i32],
    fineness: u32,
) -> io::Result<()> {
    let mut keys = [0i32; 3];
    let mut sums = [0i64; 6];
    let mut index = [0u16; 6];
    let mut book = [0i32; 12];
    let mut order = [0u16; 3];
    let head = enter_fresh(
        rt, fineness, &mut keys, &mut sums, &mut index, &mut book, readings,
    )?;
    show_source_merged(
        rt, head, &mut keys, &mut sums, &mut index, &mut book, &mut order, others,
    )
}
