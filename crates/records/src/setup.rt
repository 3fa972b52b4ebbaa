// What is read before the opening: sizes, edges and virtual vertices.

ghost use Rattle.std.specs.Prelude.{◌≡◌, not, ◌+◌, ◌*◌, ◌<◌, ◌≤◌, length};
ghost use Rattle.graph.specs.Basic.{member};
ghost use Rattle.graph.specs.Opening.{virtuals_from};
ghost use Rattle.records.specs.Record.{field};
ghost use Rattle.records.specs.Setup.{from_sizes, counted_edge, stored_edge, edge_added, new_virtual, virtual_added, stored_virtual};

use crate::bytes;
use graph::words;

#[derive(Clone, Copy)]
pub struct Setup {
    pub v: usize,
    pub e: usize,
    pub n: usize,
    pub l: usize,
    pub edges: usize, // how many edges were given, also those that are not stored
    pub virtuals: usize, // how many virtual vertices are stored
    pub bad: bool, // whether one was out of range
}

// The record of sizes.
pub fn sizes(body: &[u8]) -> Setup
    requires { 17 < length body.now }
    ensures { result ≡ from_sizes (field body.now 0) (field body.now 1) (field body.now 2) (field body.now 3) }
{
    Setup {
        v: bytes::field(body, 0),
        e: bytes::field(body, 1),
        n: bytes::field(body, 2),
        l: bytes::field(body, 3),
        edges: 0,
        virtuals: 0,
        bad: false,
    }
}

// Edges are counted up to a million.
fn counted_edge(i: usize) -> usize
    ensures { result ≡ counted_edge i }
{
    if i < 1000000 { i + 1 } else { i }
}

// Edge i is stored if it is one of the first 128.
fn store_edge(edges: &mut [i64], i: usize, x: usize, y: usize, w: usize)
    requires { (384 ≤ length edges.old) × (x ≤ 4294967295) × (y ≤ 4294967295) × (w ≤ 4294967295) }
    ensures { edges.new ≡ stored_edge edges.old i x y w }
{
    if i < 128 {
        words::put(edges, 3 * i, x);
        words::put(edges, 3 * i + 1, y);
        words::put(edges, 3 * i + 2, w);
    }
}

// The record of an edge.
pub fn add_edge(s: Setup, edges: &mut [i64], body: &[u8]) -> Setup
    requires { (384 ≤ length edges.old) × (13 < length body.now) }
    ensures { (result ≡ edge_added s)
        ×
        (edges.new
        ≡ stored_edge edges.old s.edges (field body.now 0) (field body.now 1)
        (field body.now 2)) }
{
    let x = bytes::field(body, 0);
    let y = bytes::field(body, 1);
    let w = bytes::field(body, 2);
    store_edge(edges, s.edges, x, y, w);
    Setup {
        edges: counted_edge(s.edges),
        ..s
    }
}

// Whether x is none of the numbers.
fn missing(words: &[i64], x: usize) -> bool
    ensures { result ≡ not (member x (virtuals_from words.now)) }
{
    !words.iter().any(|w| words::to_nat(*w) == x)
}

// Whether x is to be stored: it is below 64 and not among the first n.
fn new_virtual(virtuals: &[i64], n: usize, x: usize) -> bool
    requires { n ≤ length virtuals.now }
    ensures { result ≡ new_virtual virtuals.now n x }
{
    (x < 64) & missing(&virtuals[0..n], x)
}

// The record of a virtual vertex. One given twice is virtual once.
pub fn add_virtual(s: Setup, virtuals: &mut [i64], body: &[u8]) -> Setup
    requires { (s.virtuals < length virtuals.old) × (5 < length body.now) }
    ensures { (result ≡ virtual_added s virtuals.old (field body.now 0))
        × (virtuals.new ≡ stored_virtual s virtuals.old (field body.now 0)) }
{
    let x = bytes::field(body, 0);
    if s.v <= x {
        return Setup { bad: true, ..s };
    }
    if new_virtual(virtuals, s.virtuals, x) {
        words::put(virtuals, s.virtuals, x);
        return Setup {
            virtuals: s.virtuals + 1,
            ..s
        };
    }
    s
}
