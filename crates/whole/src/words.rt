// The product of two 32-bit words.
ghost use Rattle.std.specs.Prelude.{◌≡◌, ◌*◌, ◌%◌};
ghost use Rattle.whole.specs.Word.{modulus};

// Modulo 2^32.
pub fn multiply(a: u32, b: u32) -> u32
    ensures { result ≡ (a * b) % modulus }
{
    a.wrapping_mul(b)
}
