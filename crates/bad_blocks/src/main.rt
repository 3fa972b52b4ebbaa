#![tactic(auto)]

// What wrong lent memory gets. A sound block of 2 vertices, 1 edge, 1 of 2 nodes and a store of 4 words is spoiled in one way at a time; each
// line says how and which refusal that is: 1 for a wrong length or size, 2 for a block that is not sound, 0 for none.

ghost use Rattle.std.specs.Prelude.{◌≡◌, ◌<◌, ◌≤◌, length};

use refusal::Refusal;
use std::io;

// The sound block (crates/graph/specs/Example.antt has the state that it holds).
fn sample() -> [i64; 56] {
    [
        2, 1, 2, 4, 1, 1, 1, 0, 0, 0, 0, 0, 0, 0, 0, 0, // header: V, E, N, L, nodes, active nodes, 1: a change of weights stands
        2, 1, 1, 0, 1, 0, 0, 1, // flags, holder, grandson, first of each vertex
        0, 1, 3, 0, 1, 0, 1, 0, 0, 1, // end, growth, holder, grandson of each side; the sides by vertex
        4, // weight
        0, 0, 1, 0, 0, 0, 3, 0, 0, 0, 1, 0, 1, 0, // class, grow state, parent, dual, start, lengths of each node
        0, 2048, 7, 9, // the store: side 0, overgrown vertex 0 with amount 2, two free words
        0, 9, // the active list: node 0, a free word
        6, // the weight of the opening
    ]
}

fn tell(rt: &impl Print, name: &[u8], k: usize) -> io::Result<()> {
    rt.write_all(name)?;
    println!(rt; ": {k}")
}

// The number of what refuses a block, 0 for nothing.
fn tell_refusal(rt: &impl Print, name: &[u8], refused: Result<(), Refusal>) -> io::Result<()> {
    match refused {
        Ok(()) => tell(rt, name, 0),
        Err(refusal) => tell(rt, name, refusal.number()),
    }
}

// The block with word i set to x.
fn with(rt: &impl Print, name: &[u8], i: usize, x: i64) -> io::Result<()>
    requires { i < 56 }
{
    let mut b = sample();
    b[i] = x;
    let t = [0i64; 6];
    tell_refusal(rt, name, memory_tests::refuse::refusal(&b, &t))
}

fn lengths(rt: &impl Print) -> io::Result<()> {
    let b = sample();
    let t = [0i64; 7];
    tell_refusal(
        rt,
        b"a sound block",
        memory_tests::refuse::refusal(&b, &t[0..6]),
    )?;
    tell_refusal(
        rt,
        b"the block a word short",
        memory_tests::refuse::refusal(&b[0..55], &t[0..6]),
    )?;
    tell_refusal(
        rt,
        b"the scratch a word short",
        memory_tests::refuse::refusal(&b, &t[0..5]),
    )?;
    tell_refusal(
        rt,
        b"the scratch a word long",
        memory_tests::refuse::refusal(&b, &t),
    )?;
    tell_refusal(
        rt,
        b"no block at all",
        memory_tests::refuse::refusal(&b[0..0], &t[0..6]),
    )
}

// The sizes of the sound block in the header of one that has a word more.
fn longer(rt: &impl Print) -> io::Result<()> {
    let mut b = [0i64; 57];
    b[0] = 2;
    b[1] = 1;
    b[2] = 2;
    b[3] = 4;
    let t = [0i64; 6];
    tell_refusal(
        rt,
        b"the block a word long",
        memory_tests::refuse::refusal(&b, &t),
    )
}

fn sizes(rt: &impl Print) -> io::Result<()> {
    with(rt, b"V 0", 0, 0)?;
    with(rt, b"V 1,025", 0, 1025)?;
    with(rt, b"V negative", 0, -1)?;
    with(rt, b"E 0", 1, 0)?;
    with(rt, b"E 4,097", 1, 4097)?;
    with(rt, b"N 0", 2, 0)?;
    with(rt, b"N 1,025", 2, 1025)?;
    with(rt, b"L 65,537", 3, 65537)
}

fn vertices(rt: &impl Print) -> io::Result<()> {
    with(rt, b"nodes 3 of 2", 4, 3)?;
    with(rt, b"nodes negative", 4, -1)?;
    with(rt, b"flags negative", 17, -1)?;
    with(rt, b"flags 4", 17, 4)?;
    with(rt, b"vertex holder negative", 18, -1)?;
    with(rt, b"vertex grandson negative", 20, -1)?;
    with(rt, b"first negative", 22, -1)?;
    with(rt, b"first past the next", 22, 2)
}

fn sides(rt: &impl Print) -> io::Result<()> {
    with(rt, b"end negative", 24, -1)?;
    with(rt, b"end no vertex", 24, 2)?;
    with(rt, b"growth negative", 26, -1)?;
    with(rt, b"growth 1,100,000,000,001", 26, 1100000000001)?;
    with(rt, b"holder negative", 28, -1)?;
    with(rt, b"holder past the last node", 28, 2)?;
    with(rt, b"grandson negative", 30, -1)?;
    with(rt, b"a held side without a grandson", 30, 0)
}

fn edges(rt: &impl Print) -> io::Result<()> {
    with(rt, b"at negative", 32, -1)?;
    with(rt, b"at wrong: side 1 at vertex 0", 32, 1)?;
    with(rt, b"ends the same", 25, 0)?;
    with(rt, b"weight negative", 34, -1)?;
    with(rt, b"weight 1,000,001", 34, 1000001)?;
    with(rt, b"original weight negative", 55, -1)?;
    with(rt, b"original weight 1,000,001", 55, 1000001)
}

fn marks(rt: &impl Print) -> io::Result<()> {
    with(rt, b"mark negative", 6, -1)?;
    with(rt, b"mark 2", 6, 2)?;
    with(rt, b"mark 0", 6, 0)
}

fn nodes(rt: &impl Print) -> io::Result<()> {
    with(rt, b"class negative", 35, -1)?;
    with(rt, b"a blossom whose first member is itself", 35, 2)?;
    with(rt, b"grow state negative", 37, -1)?;
    with(rt, b"grow state 3", 37, 3)?;
    with(rt, b"parent negative", 39, -1)?;
    with(rt, b"parent past the last node", 39, 2)?;
    with(rt, b"dual negative", 41, -1)?;
    with(rt, b"dual 1,000,000,001", 41, 1000000001)
}

fn lists(rt: &impl Print) -> io::Result<()> {
    with(rt, b"start negative", 43, -1)?;
    with(rt, b"start not where the lists begin", 43, 1)?;
    with(rt, b"boundary length negative", 45, -1)?;
    with(rt, b"boundary past L", 45, 4)?;
    with(rt, b"overgrown length negative", 47, -1)?;
    with(rt, b"a boundary entry negative", 49, -1)?;
    with(rt, b"a boundary entry that is no side", 49, 2)?;
    with(rt, b"a side that the node does not hold", 49, 1)
}

fn stacks(rt: &impl Print) -> io::Result<()> {
    with(rt, b"an overgrown entry negative", 50, -1)?;
    with(rt, b"an overgrown vertex that is none", 50, 2050)?;
    with(
        rt,
        b"an overgrown vertex that the node does not hold",
        50,
        2049,
    )?;
    with(rt, b"an amount of 1,000,000,001", 50, 1024000001024)?;
    with(rt, b"a free word of the store negative", 51, -1)?;
    with(rt, b"a word behind the last node negative", 36, -1)?;
    with(rt, b"a free word of the header negative", 7, -1)
}

// The block with two words of boundary and no stack.
fn pair(rt: &impl Print, name: &[u8], x: i64, y: i64) -> io::Result<()> {
    let mut b = sample();
    b[45] = 2;
    b[47] = 0;
    b[49] = x;
    b[50] = y;
    let t = [0i64; 6];
    tell_refusal(rt, name, memory_tests::refuse::refusal(&b, &t))
}

// The block with k active nodes, and x, y in the active list.
fn active(rt: &impl Print, name: &[u8], k: i64, x: i64, y: i64) -> io::Result<()> {
    let mut b = sample();
    b[5] = k;
    b[53] = x;
    b[54] = y;
    let t = [0i64; 6];
    tell_refusal(rt, name, memory_tests::refuse::refusal(&b, &t))
}

fn actives(rt: &impl Print) -> io::Result<()> {
    active(rt, b"no active node", 0, 0, 9)?;
    active(rt, b"active nodes 3 of 2", 3, 0, 0)?;
    active(rt, b"active nodes negative", -1, 0, 9)?;
    active(rt, b"an active node that is none", 1, 1, 9)?;
    active(rt, b"an active node negative", 1, -1, 9)?;
    active(rt, b"a node twice in the active list", 2, 0, 0)?;
    active(rt, b"a free word of the active list negative", 1, 0, -1)
}

// The block with a second node that is removed, and with word i set to x and word j to y.
fn removed(rt: &impl Print, name: &[u8], i: usize, x: i64, j: usize, y: i64) -> io::Result<()>
    requires { (i < 56) × (j < 56) }
{
    let mut b = sample();
    b[4] = 2;
    b[36] = 1026;
    b[44] = 2;
    b[i] = x;
    b[j] = y;
    let t = [0i64; 6];
    tell_refusal(rt, name, memory_tests::refuse::refusal(&b, &t))
}

fn removals(rt: &impl Print) -> io::Result<()> {
    removed(rt, b"a removed node", 7, 0, 7, 0)?;
    removed(rt, b"a removed node in the active list", 5, 2, 54, 1)?;
    removed(rt, b"a removed node with a list", 46, 1, 51, 1)?;
    removed(rt, b"a removed node in Grow", 38, 1, 7, 0)?;
    removed(rt, b"a vertex that a removed node holds", 19, 2, 7, 0)?;
    removed(rt, b"a side that a removed node holds", 29, 2, 31, 1)?;
    removed(rt, b"a node that lies in a removed one", 39, 2, 7, 0)
}

// The block with nothing held and nothing listed.
fn unheld() -> [i64; 56] {
    let mut b = sample();
    b[18] = 0;
    b[28] = 0;
    b[37] = 0;
    b[45] = 0;
    b[47] = 0;
    b
}

// The same with node 0 of class x, and a blossom with node 0 as first member.
fn first_member(rt: &impl Print, name: &[u8], x: i64) -> io::Result<()> {
    let mut b = unheld();
    b[4] = 2;
    b[35] = x;
    b[36] = 2;
    let t = [0i64; 6];
    tell_refusal(rt, name, memory_tests::refuse::refusal(&b, &t))
}

// How many words of b are not those of the sound block.
fn changes(b: &[i64]) -> usize
    requires { length b.now ≡ 56 }
{
    let s = sample();
    let mut n = 0;
    for i in 0..56 {
        n += changed(b, &s, i);
    }
    n
}

// 1 if word i of b is not that of s, 0 else.
fn changed(b: &[i64], s: &[i64], i: usize) -> usize
    requires { (i < length b.now) × (i < length s.now) }
    ensures { result ≤ 1 }
{
    if b[i] == s[i] { 0 } else { 1 }
}

// An opening of 2 vertices over the sound block, with the given sizes and edge: its refusal, and how many words changed.
fn opening(
    rt: &impl Print,
    name: &[u8],
    v: usize,
    e: usize,
    left: i64,
    weight: i64,
    virtuals: &[i64],
) -> io::Result<()> {
    let mut b = sample();
    let t = [0i64; 6];
    let edge = [left, 1, weight];
    tell_refusal(
        rt,
        name,
        open_graph::open::open(&mut b, &t, v, e, 2, 4, &edge, virtuals),
    )?;
    tell(rt, b"  words of the block that changed", changes(&b))
}

fn openings(rt: &impl Print) -> io::Result<()> {
    let one = [1i64; 1];
    let two = [2i64; 1];
    opening(rt, b"open with V 0", 0, 1, 0, 4, &one)?;
    opening(rt, b"open with E 2 and one edge", 2, 2, 0, 4, &one)?;
    opening(
        rt,
        b"open with V 3, for which the block is too short",
        3,
        1,
        0,
        4,
        &one,
    )?;
    opening(rt, b"open with virtual vertex 2 of 2", 2, 1, 0, 4, &two)?;
    opening(rt, b"open with an edge from 1 to 1", 2, 1, 1, 4, &one)?;
    opening(rt, b"open with a negative weight", 2, 1, 0, -4, &one)?;
    opening(rt, b"open as it should be", 2, 1, 0, 4, &one)
}

fn main(rt: HostRuntime) -> io::Result<()> {
    lengths(&rt)?;
    longer(&rt)?;
    sizes(&rt)?;
    vertices(&rt)?;
    sides(&rt)?;
    edges(&rt)?;
    marks(&rt)?;
    nodes(&rt)?;
    lists(&rt)?;
    stacks(&rt)?;
    pair(&rt, b"a side twice in a list", 0, 0)?;
    actives(&rt)?;
    removals(&rt)?;
    first_member(&rt, b"a blossom whose first member is a defect", 0)?;
    first_member(&rt, b"a blossom whose first member is removed", 1026)?;
    openings(&rt)
}
