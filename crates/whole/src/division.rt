// Division that rounds down, and the remainder that is never negative. The machine's `/` and `%` go
// towards zero, so each has a case for a negative remainder. The library's `rem_euclid` and `div_euclid`
// branch on the sign of what is divided: with them `enclose` takes a third longer.
ghost use Rattle.std.specs.Prelude.{◌≡◌};
ghost use Rattle.whole.specs.Floor.{floor, remainder, Divisor};

// What a coordinate leaves on division by m: -4 leaves 2 on division by 3.
pub fn remainder_of(x: i32, m: u32) -> u32
    requires { Divisor m }
    ensures { result ≡ remainder x m }
{
    let n = m as i32;
    let r = x % n;
    if r < 0 { (r + n) as u32 } else { r as u32 }
}

// The greatest whole number that is at most x / m.
pub fn floor_of(x: i32, m: u32) -> i32
    requires { Divisor m }
    ensures { result ≡ floor x m }
{
    let n = m as i32;
    let q = x / n;
    if x % n < 0 { q - 1 } else { q }
}
