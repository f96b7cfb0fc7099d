// The blur of a table, on two work sheets: d + 1 passes, each from the first sheet to the second and
// back. What a pass is stands in specs/; that it is linear and keeps its bounds, in proofs/.
#![tactic(auto)]

ghost use Rattle.std.specs.Prelude.{◌≡◌, suc};
ghost use Rattle.table.specs.Heads.{settings, table};
ghost use Rattle.blur.specs.Sheet.{sheet_after};
ghost use Rattle.blur.specs.Inner.{Returning, passed_sheet, Blurrable, Sheets, Blurred};

pub mod pair;
mod pass;
mod step;

use crate::pass::pass;
use table::Head;

// Pass k, and its pairs back into the first sheet.
fn pass_back(
    head: Head,
    keys: &[i32],
    index: &[u16],
    first: &mut [i64],
    second: &mut [i64],
    k: usize,
)
    requires { Returning (settings head) (table head keys.now first.old index.now) second.old }
    ensures { let t = table head keys.now first.old index.now in
        first.new ≡ passed_sheet (settings head) t k }
{
    let numbers = 2 * head.points;
    pass(head, keys, index, first, second, k);
    first[..numbers].copy_from_slice(&second[..numbers]);
}

// The passes 0 to d, in that order.
fn all_passes(head: Head, keys: &[i32], index: &[u16], first: &mut [i64], second: &mut [i64])
    requires { Blurrable (settings head) (table head keys.now first.old index.now) second.old }
    ensures { let t = table head keys.now first.old index.now in
        first.new ≡ sheet_after (settings head) t (suc head.d) }
{
    let n = head.d + 1;
    for k in 0..n {
        pass_back(head, keys, index, first, second, k);
    }
}

// The blurred pairs of a sound table into the first sheet, in stored order; every other number of
// both sheets is 0 then, whatever they held.
pub fn blur(
    head: Head,
    keys: &[i32],
    sums: &[i64],
    index: &[u16],
    first: &mut [i64],
    second: &mut [i64],
)
    requires { Sheets (settings head) (table head keys.now sums.now index.now) first.old second.old }
    ensures { let t = table head keys.now sums.now index.now in
        Blurred (settings head) t first.new second.new }
{
    let numbers = 2 * head.points;
    first.fill(0);
    first[..numbers].copy_from_slice(&sums[..numbers]);
    all_passes(head, keys, index, first, second);
    second.fill(0);
}
