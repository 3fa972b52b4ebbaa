// Reading the words that are handed over. A place where there is no word reads as the definitions say, so that every reader is total.

ghost use Rattle.std.specs.Prelude.{◌≡◌, ◌<◌, ◌≤◌};
ghost use Rattle.graph.specs.Word.{word_at, word_limit};
ghost use Rattle.table_words.specs.Handed.{distance_of, distance_in};
ghost use Rattle.table_words.specs.Sides.{near_in, across_in, weight_in};

use graph::words;
use open_graph::given;

// The number at place i, 0 where there is none.
pub fn number(list: &[i64], i: usize) -> usize
    ensures { (result ≡ word_at list.now i) × (result < word_limit) }
{
    if i < list.len() {
        words::word(list, i)
    } else {
        0
    }
}

// The distance that a word gives.
pub fn distance(x: i64) -> usize
    ensures { (result ≡ distance_of x) × (result ≤ 2000000000001) }
{
    let k = words::magnitude(x);
    if words::non_negative(x) {
        if k <= 1023000000 { k } else { 2000000000001 }
    } else {
        if k == 1 { 2000000000000 } else { 2000000000001 }
    }
}

// The distance to vertex u in a row.
pub fn distance_in(row: &[i64], u: usize) -> usize
    ensures { (result ≡ distance_in row.now u) × (result ≤ 2000000000001) }
{
    if u < row.len() {
        distance(row[u])
    } else {
        2000000000000
    }
}

// The vertex of side s.
pub fn near(edges: &[i64], s: usize) -> usize
    requires { s < 8192 }
    ensures { (result ≡ near_in edges.now s) × (result < word_limit) }
{
    given::given(edges, 3 * (s / 2) + s % 2)
}

// The vertex across.
pub fn across(edges: &[i64], s: usize) -> usize
    requires { s < 8192 }
    ensures { (result ≡ across_in edges.now s) × (result < word_limit) }
{
    given::given(edges, 3 * (s / 2) + (1 - s % 2))
}

// Its weight.
pub fn weight(edges: &[i64], s: usize) -> usize
    requires { s < 8192 }
    ensures { (result ≡ weight_in edges.now s) × (result < word_limit) }
{
    given::given(edges, 3 * (s / 2) + 2)
}
