// The words of a row. A test against a limit takes no step for words below zero, and a read of a word that passed one neither.

ghost use Rattle.std.specs.Prelude.{◌≡◌, ◌&&◌, ◌<◌, leb, ltb, eqb, length};
ghost use Rattle.graph.specs.Word.{to_nat, word_at};

use graph::words;

// ---- of one word

// Whether the number of x is at most m.
fn small(x: i64, m: usize) -> bool
    requires { m < 9223372036854775807 }
    ensures { result ≡ leb (to_nat x) m }
{
    (0 <= x) & (x <= words::to_word(m))
}

// Whether it is below m.
fn less(x: i64, m: usize) -> bool
    requires { m < 9223372036854775807 }
    ensures { result ≡ ltb (to_nat x) m }
{
    (0 <= x) & (x < words::to_word(m))
}

// Whether it is from a to m.
fn within(x: i64, a: usize, m: usize) -> bool
    requires { (a < 9223372036854775807) × (m < 9223372036854775807) }
    ensures { result ≡ leb a (to_nat x) && leb (to_nat x) m }
{
    (words::to_word(a) <= x) & (x <= words::to_word(m))
}

// Whether it is m.
fn same(x: i64, m: usize) -> bool
    requires { m < 9223372036854775807 }
    ensures { result ≡ eqb (to_nat x) m }
{
    x == words::to_word(m)
}

// The number of x, which is not below zero.
fn plain(x: i64) -> usize
    requires { to_nat x < 9223372036854775807 }
    ensures { result ≡ to_nat x }
{
    x as usize
}

// ---- of a row

// Whether number i of a row is at most m.
pub fn at_most(row: &[i64], i: usize, m: usize) -> bool
    requires { (i < length row.now) × (m < 9223372036854775807) }
    ensures { result ≡ leb (word_at row.now i) m }
{
    small(row[i], m)
}

// Whether it is below m.
pub fn below(row: &[i64], i: usize, m: usize) -> bool
    requires { (i < length row.now) × (m < 9223372036854775807) }
    ensures { result ≡ ltb (word_at row.now i) m }
{
    less(row[i], m)
}

// Whether it is from a to m.
pub fn between(row: &[i64], i: usize, a: usize, m: usize) -> bool
    requires { (i < length row.now) × (a < 9223372036854775807) × (m < 9223372036854775807) }
    ensures { result ≡ leb a (word_at row.now i) && leb (word_at row.now i) m }
{
    within(row[i], a, m)
}

// Whether it is m.
pub fn holds(row: &[i64], i: usize, m: usize) -> bool
    requires { (i < length row.now) × (m < 9223372036854775807) }
    ensures { result ≡ eqb (word_at row.now i) m }
{
    same(row[i], m)
}

// Number i of a row, which is in range.
pub fn number(row: &[i64], i: usize) -> usize
    requires { (i < length row.now) × (word_at row.now i < 9223372036854775807) }
    ensures { result ≡ word_at row.now i }
{
    plain(row[i])
}
