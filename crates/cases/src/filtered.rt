// The filter on a table of dimension 1: both work sheets as it leaves them, and the answers at five
// queries. The sheets and the lists of values and codes hold 9 before the call.
use crate::print::print_numbers;
use crate::tables::enter_fresh;
use filter::filter;
use lattice::refusals::number_told;
use std::io;
use table::Head;

fn print_sheet(rt: &impl Print, sheet: &[i64]) -> io::Result<()> {
    print!(rt; "SHEET")?;
    print_numbers(rt, sheet)?;
    println!(rt; "")
}

fn print_answers(rt: &impl Print, values: &[i32], codes: &[u8]) -> io::Result<()> {
    for (value, code) in values.iter().zip(codes) {
        println!(rt; "ANSWER {value} {code}")?;
    }
    Ok(())
}

fn show_answers(
    rt: &impl Print,
    head: Head,
    keys: &[i32],
    sums: &[i64],
    index: &[u16],
    book: &[i32],
    queries: &[i32],
) -> io::Result<()> {
    let mut first = [9i64; 16];
    let mut second = [9i64; 16];
    let mut values = [9i32; 5];
    let mut codes = [9u8; 5];
    let done = filter(
        head,
        keys,
        sums,
        index,
        book,
        &mut first,
        &mut second,
        queries,
        &mut values,
        &mut codes,
    );
    println!(rt; "FILTERED {}", number_told(&done))?;
    print_sheet(rt, &first)?;
    print_sheet(rt, &second)?;
    print_answers(rt, &values, &codes)
}

// Readings entered into a fresh table of capacity 8, and five queries answered.
pub fn show_filtered(
    rt: &impl Print,
    readings: &[i32],
    queries: &[i32],
    fineness: u32,
) -> io::Result<()> {
    let mut keys = [0i32; 8];
    let mut sums = [0i64; 16];
    let mut index = [0u16; 16];
    let mut book = [0i32; 8];
    let head = enter_fresh(
        rt, fineness, &mut keys, &mut sums, &mut index, &mut book, readings,
    )?;
    show_answers(rt, head, &keys, &sums, &index, &book, queries)
}
