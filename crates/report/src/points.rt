// The lines of a table's points, in listing order.
ghost use Rattle.std.specs.Prelude.{length};
ghost use Rattle.table.specs.Heads.{settings, table};
ghost use Rattle.text.specs.Text.{Written};
ghost use Rattle.report.specs.Report.{point_lines};
ghost use Rattle.report.specs.Inner.{lines_in, RowsRoom, PointsRoom};

use crate::MOST_LOG_CAPACITY;
use crate::lines::put_point_line;
use listing::fill::fill;
use table::Head;

// The lines of the points that the array names, from its start on.
fn put_rows(
    out: &mut [u8],
    at: usize,
    head: Head,
    keys: &[i32],
    sums: &[i64],
    order: &[u16],
) -> usize
    requires { RowsRoom head.d head.points keys.now sums.now order.now at (length out.old) }
    ensures { let lines = lines_in head.d keys.now sums.now order.now head.points in
        Written out.old at lines result out.new }
{
    let mut next = at;
    for i in &order[..head.points] {
        next = put_point_line(out, next, head, keys, sums, usize::from(*i));
    }
    next
}

// The table is sound, so its list is filled without the tests that the call `list` makes first.
pub fn put_points(
    out: &mut [u8],
    at: usize,
    head: Head,
    keys: &[i32],
    sums: &[i64],
    index: &[u16],
) -> usize
    requires { PointsRoom (settings head) (table head keys.now sums.now index.now) at (length out.old) }
    ensures { let t = table head keys.now sums.now index.now in
        Written out.old at (point_lines (settings head) t) result out.new }
{
    let mut order = [0u16; MOST_LOG_CAPACITY];
    fill(keys, head.d, head.points, &mut order[..head.capacity]);
    put_rows(out, at, head, keys, sums, &order)
}
