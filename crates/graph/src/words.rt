// Words as numbers.

ghost use Rattle.std.specs.Prelude.{◌≡◌, ◌<◌, ◌≤◌, length, get_or, set, pos, nat_abs};
ghost use Rattle.std.specs.Int.Signed.{non_neg};
ghost use Rattle.graph.specs.Word.{to_nat, word_at, word_limit};

// The number that a word stands for; the greatest word for a negative one.
pub fn to_nat(x: i64) -> usize
    ensures { (result ≡ to_nat x) × (result < word_limit) }
{
    if x < 0 {
        9223372036854775807
    } else {
        x as usize
    }
}

// A number as a word.
pub fn to_word(x: usize) -> i64
    requires { x < word_limit }
    ensures { result ≡ pos x }
{
    x as i64
}

// The number at place i.
pub fn word(b: &[i64], i: usize) -> usize
    requires { i < length b.now }
    ensures { (result ≡ word_at b.now i) × (result < word_limit) }
{
    to_nat(b[i])
}

// The number x is put at place i.
pub fn put(b: &mut [i64], i: usize, x: usize)
    requires { (i < length b.old) × (x < word_limit) }
    ensures { b.new ≡ set b.old i (pos x) }
{
    b[i] = to_word(x);
}

// Each of `from` is copied to its place in `to`. An archive for C then asks for no memmove, as copy_from_slice does.
pub fn copy_each<T: Copy>(to: &mut [T], from: &[T])
    requires { length to.old ≡ length from.now }
    ensures { to.new ≡ from.now }
{
    for i in 0..from.len() {
        to[i] = from[i];
    }
}

// Whether a signed number is not negative.
pub fn non_negative(x: i64) -> bool
    ensures { result ≡ non_neg x }
{
    0 <= x
}

// How far a signed number is from zero.
pub fn magnitude(x: i64) -> usize
    ensures { (result ≡ nat_abs x) × (result ≤ word_limit) }
{
    if x < 0 {
        (-1 - x) as usize + 1
    } else {
        x as usize
    }
}
