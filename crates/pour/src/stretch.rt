// A point's stretch of the lent keys: the d numbers that start at d times the point's number.
ghost use Rattle.std.specs.Prelude.{◌≡◌, ◌+◌, ◌*◌, ◌≤◌, length};
ghost use Rattle.whole.specs.Lists.{splice};

// A key into a stretch of its length.
pub fn put_key(stretch: &mut [i32], key: &[i32])
    requires { length stretch.old ≡ length key.now }
    ensures { stretch.new ≡ key.now }
{
    stretch.copy_from_slice(key);
}

// A key into the stretch of a point.
pub fn store_key(keys: &mut [i32], key: &[i32], point: usize)
    requires { length key.now * point + length key.now ≤ length keys.old }
    ensures { keys.new ≡ splice keys.old (length key.now * point) key.now }
{
    let d = key.len();
    let a = d * point;
    let b = a + d;
    put_key(&mut keys[a..b], key);
}
