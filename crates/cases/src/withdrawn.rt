// A reading of document 01's log taken back. Its table is entered as above, with the numbers 7 and -3,
// and its book has room for a third, in which something else stands.
use crate::tables::{enter_fresh, handed_back, print_book, print_table};
use std::io;
use table::Head;
use withdraw::withdraw;

// The number that the call answers, the table that is left, and the book.
fn show_left(
    rt: &impl Print,
    head: Head,
    keys: &mut [i32],
    sums: &mut [i64],
    index: &mut [u16],
    book: &mut [i32],
    order: &mut [u16],
    number: i32,
) -> io::Result<()> {
    let (told, left) = handed_back(withdraw(head, keys, sums, index, book, number));
    println!(rt; "WITHDRAWN {told}")?;
    print_table(rt, left, keys, sums, index, book, order)?;
    print_book(rt, book)
}

pub fn show_withdrawn(rt: &impl Print, number: i32) -> io::Result<()> {
    let mut keys = [0i32; 8];
    let mut sums = [0i64; 16];
    let mut index = [0u16; 16];
    let mut order = [0u16; 8];
    let mut book = [0i32; 12];
    let readings = [7i32, 3, -3, 10, -3, 2, -2, 4];
    let head = enter_fresh(
        rt, 2, &mut keys, &mut sums, &mut index, &mut book, &readings,
    )?;
    book[8] = 9;
    book[11] = 9;
    show_left(
        rt, head, &mut keys, &mut sums, &mut index, &mut book, &mut order, number,
    )
}
