// The quotient rounded to the nearest whole number, a half away from zero.
ghost use Rattle.std.specs.Prelude.{◌≡◌, nat_abs};
ghost use Rattle.whole.specs.Rounding.{rounded, Fraction};

// Twice the fraction and one more on its side of zero, halved towards zero.
pub fn round_fraction(num: i64, den: i64) -> i64
    requires { Fraction num den }
    ensures { result ≡ rounded num (nat_abs den) }
{
    let two = den + den;
    if num < 0 {
        (num + num - den) / two
    } else {
        (num + num + den) / two
    }
}
