// The four kinds of lines, each with its fixed word.
ghost use Rattle.std.specs.Prelude.{◌≡◌, ◌+◌, ◌≤◌, length};
ghost use Rattle.lattice.specs.Refusals.{number};
ghost use Rattle.text.specs.Text.{Written};
ghost use Rattle.report.specs.Report.{answer_line, refused_line};
ghost use Rattle.report.specs.Inner.{counts_line, HeadRoom, RefusedRoom, LiesIn, PointRoom, line_numbers, line_at};

use lattice::refusals::Refusal;
use table::Head;
use text::put_line;

// As many numbers as a line has at most: six coordinates, a mass and a value sum.
const MOST_IN_LINE: usize = 8;

// HEAD: d, S, readings, points.
pub fn put_head(out: &mut [u8], head: Head) -> usize
    requires { HeadRoom head (length out.old) }
    ensures { Written out.old 0 (counts_line head) result out.new }
{
    // Counts are cast: usize has no From into i64.
    let numbers = [
        head.d as i64,
        i64::from(head.fineness),
        head.readings as i64,
        head.points as i64,
    ];
    put_line(out, 0, b"HEAD", &numbers)
}

// A point's d + 1 coordinates, the last of them minus the sum of those kept, its mass and its value
// sum; then 0.
fn point_numbers(head: Head, keys: &[i32], sums: &[i64], i: usize) -> [i64; MOST_IN_LINE]
    requires { LiesIn head.d keys.now sums.now i }
    ensures { result ≡ line_numbers head.d keys.now sums.now i }
{
    let d = head.d;
    let mut numbers = [0i64; MOST_IN_LINE];
    let mut total = 0;
    for (j, kept) in keys[d * i..d * i + d].iter().enumerate() {
        let kept = i64::from(*kept);
        numbers[j] = kept;
        total += kept;
    }
    numbers[d] = -total;
    numbers[d + 1] = sums[2 * i];
    numbers[d + 2] = sums[2 * i + 1];
    numbers
}

// POINT: all d + 1 coordinates, mass, value sum.
pub fn put_point_line(
    out: &mut [u8],
    at: usize,
    head: Head,
    keys: &[i32],
    sums: &[i64],
    i: usize,
) -> usize
    requires { PointRoom head.d keys.now sums.now i at (length out.old) }
    ensures { Written out.old at (line_at head.d keys.now sums.now i) result out.new }
{
    let numbers = point_numbers(head, keys, sums, i);
    put_line(out, at, b"POINT", &numbers[..head.d + 3])
}

// ANSWER: value, code.
pub fn put_answer(out: &mut [u8], at: usize, value: i32, code: u8) -> usize
    requires { at + length (answer_line value code) ≤ length out.old }
    ensures { Written out.old at (answer_line value code) result out.new }
{
    put_line(out, at, b"ANSWER", &[i64::from(value), i64::from(code)])
}

// REFUSED: the number of the refusal, offset. It is the whole of the text.
pub fn put_refused(out: &mut [u8], refusal: Refusal, offset: usize) -> usize
    requires { RefusedRoom (number refusal) offset (length out.old) }
    ensures { Written out.old 0 (refused_line (number refusal) offset) result out.new }
{
    // The offset is cast, as the counts of a head are.
    put_line(
        out,
        0,
        b"REFUSED",
        &[i64::from(refusal.number()), offset as i64],
    )
}
