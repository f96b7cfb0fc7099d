// The small numbers of document 01, run through the compiled library. A position is printed with the
// points of weight above 0 for it and their weights, or with the number by which it is refused; a
// quotient with what it is rounded to; a division with its remainder; a list of readings with how many
// were taken, the number, and the table; a reading taken back with the number, the table and its book;
// and the filter with its sheets and answers. What this prints is held to the file stdout beside src/.
// Its numbers are the document's, but for the one point of (1000000,-1000000): the document says only
// that it is taken, and as a lattice point it has all of W. What taking a reading back leaves is
// document 02's, computed by hand. The filter is also run on a table of no readings, and with one query
// where there are five values, which is number 2 and leaves everything as it was. Last come logs, each
// with the report that dyemap prints for it.
#![tactic(auto)]

ghost use Rattle.std.specs.Prelude.{◌≤◌};

mod filtered;
mod logs;
mod print;
mod tables;
mod withdrawn;

use crate::filtered::show_filtered;
use crate::logs::show_logs;
use crate::print::print_numbers;
use crate::tables::{show_entered, show_merged};
use crate::withdrawn::show_withdrawn;
use lattice::position::judge;
use simplex::{Simplex, enclose};
use std::io;
use whole::division::remainder_of;
use whole::round::round_fraction;

// The points of weight above 0: the n coordinates of each, and its weight.
fn print_points(rt: &impl Print, s: Simplex, n: usize) -> io::Result<()>
    requires { n ≤ 6 }
{
    for (k, weight) in s.weights[..n].iter().enumerate() {
        if *weight != 0 {
            print!(rt; "POINT")?;
            print_numbers(rt, &s.coords[6 * k..6 * k + n])?;
            println!(rt; " {weight}")?;
        }
    }
    Ok(())
}

// A position of two to six coordinates: the points around it, or its refusal.
fn show(rt: &impl Print, x: &[i32], fineness: u32) -> io::Result<()> {
    let n = x.len();
    if n < 2 || 6 < n || fineness < 1 || 64 < fineness {
        return Ok(());
    }
    print!(rt; "FINENESS {fineness} POSITION")?;
    print_numbers(rt, x)?;
    println!(rt; "")?;
    match judge(x) {
        Ok(()) => print_points(rt, enclose(x, n - 1, fineness), n),
        Err(refusal) => println!(rt; "REFUSED {}", refusal.number()),
    }
}

fn show_rounded(rt: &impl Print, num: i32, den: i32) -> io::Result<()> {
    if den < 1 {
        return Ok(());
    }
    let r = round_fraction(i64::from(num), i64::from(den));
    println!(rt; "ROUNDED {num} {den} {r}")
}

fn show_remainder(rt: &impl Print, x: i32, m: u32) -> io::Result<()> {
    if m < 1 || 1000 < m {
        return Ok(());
    }
    let r = remainder_of(x, m);
    println!(rt; "REMAINDER {x} {m} {r}")
}

fn main(rt: HostRuntime) -> io::Result<()> {
    show(&rt, &[3, -1, -2], 2)?;
    show(&rt, &[1, 0, -1], 1)?;
    show(&rt, &[1, 1, -2], 2)?;
    show(&rt, &[2, 2, -4], 2)?;
    show(&rt, &[1000000, -1000000], 1)?;
    show(&rt, &[1000001, 0], 1)?;
    show(&rt, &[5, -4], 1)?;
    show_rounded(&rt, 3, 2)?;
    show_rounded(&rt, -3, 2)?;
    show_rounded(&rt, -1, 2)?;
    show_rounded(&rt, 1, 3)?;
    show_rounded(&rt, -2, 3)?;
    show_remainder(&rt, -4, 3)?;
    show_remainder(&rt, -1, 3)?;
    show_entered(&rt, &[7, 3, -3, 10, -3, 2, -2, 4], 2)?;
    show_entered(&rt, &[7, 3, -3, 10, 7, 2, -2, 4], 2)?;
    show_merged(&rt, &[-3, 2, -2, 4], &[7, 3, -3, 10], 2)?;
    show_merged(&rt, &[7, 2, -2, 4], &[7, 3, -3, 10], 2)?;
    show_withdrawn(&rt, 7)?;
    show_withdrawn(&rt, -3)?;
    show_withdrawn(&rt, 0)?;
    show_entered(&rt, &[0, 1000000, -1000000, 0], 1)?;
    show_entered(&rt, &[0, 1000001, 0, 0], 1)?;
    show_entered(&rt, &[0, 5, -4, 0], 1)?;
    show_filtered(
        &rt,
        &[7, 3, -3, 10, -3, 2, -2, 4],
        &[3, -3, 4, -4, 100, -100, 1000001, 0, 5, -4],
        2,
    )?;
    show_filtered(&rt, &[], &[3, -3, 4, -4, 100, -100, 1000001, 0, 5, -4], 2)?;
    show_filtered(&rt, &[7, 3, -3, 10], &[3, -3], 2)?;
    show_logs(&rt)
}
