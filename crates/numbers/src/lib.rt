// The numbers of a book: whether no two entries have one, told by an index of their own. The calls
// that ask whether a number is held ask the same index.
#![tactic(auto)]

ghost use Rattle.std.specs.Prelude.{◌≡◌, true, not, ◌+◌, ◌*◌, ◌≤◌, ◌<◌, length};
ghost use Rattle.whole.specs.Sum.{all};
ghost use Rattle.whole.specs.Lists.{at};
ghost use Rattle.lattice.specs.Limits.{most_d, most_readings};
ghost use Rattle.index.specs.Search.{Searchable};
ghost use Rattle.book.specs.Book.{number_at, among, numbers_apart};
ghost use Rattle.book.specs.Numbers.{lowest_from};
ghost use Rattle.numbers.specs.Indexing.{number_room, place_for, is_named, NumberIndex, Adds, IndexesBook, HeldBelow};

// More than a book has entries, so that the index always has an empty place; and a prime, so that
// numbers which are multiples of a power of 2 go to different places.
pub const NUMBER_ROOM: usize = 4099;

// The place that names the entry of this number, or else the empty place where the search for it
// ends: the search of a table, for a key of one coordinate.
pub fn place_of(numbers: &[i32], places: &[u16], number: i32) -> usize
    requires { Searchable 1 number_room numbers.now places.now }
    ensures { result ≡ place_for numbers.now places.now number }
{
    let key = [number];
    index::search::search(numbers, places, NUMBER_ROOM, &key)
}

// Whether a number is held: the search for it ends at a place that names an entry.
pub fn is_held(numbers: &[i32], places: &[u16], number: i32) -> bool
    requires { Searchable 1 number_room numbers.now places.now }
    ensures { result ≡ is_named numbers.now places.now number }
{
    let place = place_of(numbers, places, number);
    let entry = places[place];
    entry != 0
}

// One more number behind the others; false, and nothing is changed, where it is among them.
pub fn add_number(numbers: &mut [i32], places: &mut [u16], count: usize, number: i32) -> bool
    requires number_index { NumberIndex count numbers.old places.old }
    requires count_lt_most_readings { count < most_readings }
    ensures { Adds count numbers.old places.old number result numbers.new places.new }
{
    let place = place_of(numbers, places, number);
    let entry = places[place];
    if entry != 0 {
        return false;
    }
    numbers[count] = number;
    places[place] = (count + 1) as u16;
    true
}

// The numbers of n entries copied into a list with its index, each looked for before it is added;
// false where one is met twice, and there it stops.
pub fn index_book(numbers: &mut [i32], places: &mut [u16], book: &[i32], d: usize, n: usize) -> bool
    requires number_index { NumberIndex 0 numbers.old places.old }
    requires d_le_most_d { (d ≤ most_d) × (n ≤ most_readings) × ((d + 3) * n ≤ length book.now) }
    ensures { IndexesBook n (number_at d book.now) numbers.old result numbers.new places.new }
{
    let width = d + 3;
    for (j, entry) in book[..width * n].chunks_exact(width).enumerate() {
        if !add_number(numbers, places, j, entry[0]) {
            return false;
        }
    }
    true
}

// Whether no two of n entries have one number. The list and its index are the function's own, so
// that nothing is lent for a test.
pub fn numbers_apart(book: &[i32], d: usize, n: usize) -> bool
    requires { (d ≤ most_d) × (n ≤ most_readings) × ((d + 3) * n ≤ length book.now) }
    ensures { result ≡ numbers_apart n (number_at d book.now) }
{
    let mut numbers = [0i32; NUMBER_ROOM];
    let mut places = [0u16; 2 * NUMBER_ROOM];
    index_book(&mut numbers, &mut places, book, d, n)
}

// Whether none of the numbers of so many entries is held.
fn none_held(numbers: &[i32], places: &[u16], source: &[i32], d: usize, count: usize) -> bool
    requires searchable { Searchable 1 number_room numbers.now places.now }
    requires d_le_most_d { (d ≤ most_d) × (count ≤ most_readings) × ((d + 3) * count ≤ length source.now) }
    ensures { result ≡ all count (λ j. not (is_named numbers.now places.now (number_at d source.now j))) }
{
    let width = d + 3;
    source[..width * count]
        .chunks_exact(width)
        .all(|entry| !is_held(numbers, places, entry[0]))
}

// Whether none of the numbers of so many entries of a source is held in a target of n entries. The
// target's numbers are indexed first, so each book is gone through once.
pub fn none_met(book: &[i32], d: usize, n: usize, source: &[i32], count: usize) -> bool
    requires d_le_most_d { (d ≤ most_d) × (n ≤ most_readings) × ((d + 3) * n ≤ length book.now) }
    requires count_le_most_readings { (count ≤ most_readings) × ((d + 3) * count ≤ length source.now) }
    requires book_value { numbers_apart n (number_at d book.now) ≡ true }
    ensures { result ≡ all count (λ j. not (among n (number_at d book.now) (number_at d source.now j))) }
{
    let mut numbers = [0i32; NUMBER_ROOM];
    let mut places = [0u16; 2 * NUMBER_ROOM];
    index_book(&mut numbers, &mut places, book, d, n);
    none_held(&numbers, &places, source, d, count)
}

// The lowest number from 0 up that n entries do not have, where all below `from` are known to be
// held: a caller that only adds numbers goes on from the last answer. Where 0 to n - 1 are all held
// they are all that n entries have, so n need not be looked for.
pub fn lowest_from(numbers: &[i32], places: &[u16], n: usize, from: usize) -> usize
    requires number_index { NumberIndex n numbers.now places.now }
    requires from_le_n { (from ≤ n) × HeldBelow from n (at numbers.now) }
    ensures { result ≡ lowest_from n n (at numbers.now) 0 }
{
    (from..n)
        .find(|k| !is_held(numbers, places, *k as i32))
        .unwrap_or(n)
}
