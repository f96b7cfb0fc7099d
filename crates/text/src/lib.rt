// Lines of text in a lent buffer: a fixed word, whole numbers in decimal, and one line feed.
#![tactic(auto)]

ghost use Rattle.std.specs.Prelude.{◌≡◌, ◌∷◌, ◌+◌, ◌≤◌, length};
ghost use Rattle.text.specs.Text.{digits, decimal, spaced, line, space, Written};

// Bytes copied into the buffer from a place on; the place after them. A place goes in and comes out of
// each function, as `put_line` promises it.
fn put(out: &mut [u8], at: usize, bytes: &[u8]) -> usize
    requires { at + length bytes.now ≤ length out.old }
    ensures { Written out.old at bytes.now result out.new }
{
    let end = at + bytes.len();
    out[at..end].copy_from_slice(bytes);
    end
}

// How many digits a size has: counted by twos, since each step is a division.
fn count_digits(n: u64) -> usize
    ensures { result ≡ length (digits n) }
{
    let mut count = 1;
    let mut rest = n;
    while 100 <= rest {
        rest /= 100;
        count += 2;
    }
    if rest < 10 { count } else { count + 1 }
}

// A size in decimal: its digits are counted, and written from the last one back.
fn put_digits(out: &mut [u8], at: usize, n: u64) -> usize
    requires { at + length (digits n) ≤ length out.old }
    ensures { Written out.old at (digits n) result out.new }
{
    let end = at + count_digits(n);
    let mut left = n;
    for next in (at..end).rev() {
        out[next] = b'0' + (left % 10) as u8;
        left /= 10;
    }
    end
}

fn put_decimal(out: &mut [u8], at: usize, number: i64) -> usize
    requires { at + length (decimal number) ≤ length out.old }
    ensures { Written out.old at (decimal number) result out.new }
{
    let size = number.unsigned_abs();
    if number < 0 {
        out[at] = b'-';
        return put_digits(out, at + 1, size);
    }
    put_digits(out, at, size)
}

// A number after a space.
fn put_spaced(out: &mut [u8], at: usize, number: i64) -> usize
    requires { at + length (space ∷ decimal number) ≤ length out.old }
    ensures { Written out.old at (space ∷ decimal number) result out.new }
{
    out[at] = b' ';
    put_decimal(out, at + 1, number)
}

fn put_numbers(out: &mut [u8], at: usize, numbers: &[i64]) -> usize
    requires { at + length (spaced numbers.now) ≤ length out.old }
    ensures { Written out.old at (spaced numbers.now) result out.new }
{
    let mut next = at;
    for number in numbers {
        next = put_spaced(out, next, *number);
    }
    next
}

// A line written from a place on, where there is room for it; the place after it.
pub fn put_line(out: &mut [u8], at: usize, word: &[u8], numbers: &[i64]) -> usize
    requires { at + length (line word.now numbers.now) ≤ length out.old }
    ensures { Written out.old at (line word.now numbers.now) result out.new }
{
    let after_word = put(out, at, word);
    let end = put_numbers(out, after_word, numbers);
    out[end] = b'\n';
    end + 1
}
