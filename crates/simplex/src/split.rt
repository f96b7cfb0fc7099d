// The splits of a position: each coordinate divided once by W, into floor and remainder.
ghost use Rattle.std.specs.Prelude.{◌-ℤ◌, length};
ghost use Rattle.whole.specs.Size.{Abs≤};
ghost use Rattle.lattice.specs.Limits.{farthest};
ghost use Rattle.simplex.specs.Inner.{Total, SplitOf, joined, Part, Near, Six, SplitsOf};

use lattice::limits::MOST_COORDS;

// x = w * floor + rest, with rest from 0 to w - 1.
#[derive(Clone, Copy)]
pub struct Split {
    pub floor: i32,
    pub rest: i32,
}

// The splits of up to six coordinates, in two arrays: a split that is read whole, as an array of them is
// read, waits for the two writes that made it, and with one coordinate `enclose` took a third longer.
#[derive(Drop)]
pub struct Splits {
    pub floors: [i32; MOST_COORDS],
    pub rests: [i32; MOST_COORDS],
}

// One division, and the remainder by a product.
fn split_of(x: i32, w: u32) -> Split
    requires abs { Abs≤ x farthest }
    requires total { Total w }
    ensures { SplitOf w x result.floor result.rest }
{
    let q = whole::division::floor_of(x, w);
    Split {
        floor: q,
        rest: x - (w as i32) * q,
    }
}

// The splits of the coordinates in their order. They are written where the corners read them: arrays
// handed back would be copied.
pub fn put_splits(x: &[i32], w: u32, splits: &mut Splits)
    requires near { Near w x.now (length x.now) }
    requires six { Six splits.old.floors splits.old.rests }
    ensures { SplitsOf w (length x.now) x.now splits.new.floors splits.new.rests }
{
    for (i, c) in x.iter().enumerate() {
        let s = split_of(*c, w);
        splits.floors[i] = s.floor;
        splits.rests[i] = s.rest;
    }
}

// The split of a difference, from those of its two sides: one W is borrowed where the remainder is
// less.
pub fn minus(a: Split, b: Split, w: u32) -> Split
    requires total { Total w }
    requires part { Part w a.floor a.rest }
    requires part_2 { Part w b.floor b.rest }
    ensures { SplitOf w (joined w a.floor a.rest -ℤ joined w b.floor b.rest) result.floor result.rest }
{
    let q = a.floor - b.floor;
    let r = a.rest - b.rest;
    if r < 0 {
        Split {
            floor: q - 1,
            rest: r + (w as i32),
        }
    } else {
        Split { floor: q, rest: r }
    }
}
