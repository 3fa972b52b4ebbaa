// Insertion of a defect.

ghost use Rattle.std.specs.Prelude.{◌≡◌, ◌+◌, ◌<◌, length};
ghost use Rattle.graph.specs.Basic.{fold};
ghost use Rattle.graph.specs.State.{vertex_count, sides_at, with_defect, held_vertex};
ghost use Rattle.graph.specs.Layout.{state_of};
ghost use Rattle.graph.specs.Form.{Formed};
ghost use Rattle.graph.specs.inner.Form.{Becomes};
ghost use Rattle.pass.specs.Scratch.{scratch_of};
ghost use Rattle.refusal.specs.Refusal.{refusal_number};
ghost use Rattle.answers.specs.Outcome.{told};
ghost use Rattle.calls.specs.inner.Front.{FrontHolds};
ghost use Rattle.calls.specs.Insert.{defect_refusal, hold_step, insert_defect};
ghost use Rattle.calls.specs.inner.Reply.{RepliesInsert, Usable};

use crate::{occupied, refuse};
use answers::Answer;
use graph::{node, rows, side, sides, vertex, words};
use pass::scratch;
use refusal::Refusal;
use store::insert;

// What refuses a defect at vertex v in grow state x.
pub fn defect_refusal(b: &[i64], v: usize, x: usize) -> Result<(), Refusal>
    requires { Formed b.now }
    ensures { refusal_number result ≡ defect_refusal (state_of b.now) v x }
{
    if (rows::vertex_count(b) <= v) | (node::SHRINK < x) {
        return Err(Refusal::NoSuch);
    }
    let looked = occupied::occupied(b, v);
    if looked.occupied {
        return Err(Refusal::Occupied);
    }
    if rows::node_limit(b) <= rows::node_count(b) {
        return Err(Refusal::NoNodeLeft);
    }
    if refuse::store_short_new(b) {
        return Err(Refusal::StoreShort);
    }
    Ok(())
}

// The sides at vertex v are held by node n, and written at the front of t; how many they are.
fn hold_sides(b: &mut [i64], t: &mut [i64], v: usize, n: usize) -> usize
    requires { Formed b.old × (v < vertex_count (state_of b.old)) × (n < 1024) × (t.old ≡ scratch_of (state_of b.old)) }
    ensures { Becomes b.old b.new
        (fold (hold_step n) (state_of b.old) (sides_at (state_of b.old) v))
        × FrontHolds t.new (state_of b.old) (sides_at (state_of b.old) v)
        × (result ≡ length (sides_at (state_of b.old) v)) }
{
    let l = sides::sides_len(b, v);
    for i in 0..l {
        let s = sides::vertex_side(b, v, i);
        side::hold(b, s, n, n + 1);
        words::put(t, i, s);
    }
    l
}

// Vertex v becomes a defect that node n holds, with the sides there, which are written at the front of t; how many they are.
fn hold_defect(b: &mut [i64], t: &mut [i64], v: usize, n: usize) -> usize
    requires { Formed b.old × (v < vertex_count (state_of b.old)) × (n < 1024) × (t.old ≡ scratch_of (state_of b.old)) }
    ensures { Becomes b.old b.new
        (fold (hold_step n) (held_vertex (with_defect (state_of b.old) v 1) v n (n + 1))
        (sides_at (state_of b.old) v))
        × FrontHolds t.new (state_of b.old) (sides_at (state_of b.old) v)
        × (result ≡ length (sides_at (state_of b.old) v)) }
{
    vertex::set_defect(b, v, 1);
    vertex::hold(b, v, n, n + 1);
    hold_sides(b, t, v, n)
}

// The next node is a defect at vertex v, in grow state x.
pub fn insert_defect(b: &mut [i64], t: &mut [i64], v: usize, x: usize) -> Result<Answer, Refusal>
    requires { Usable b.old t.old }
    ensures { RepliesInsert b.old b.new (told result) (insert_defect (state_of b.old) v x) × (t.new ≡ t.old) }
{
    defect_refusal(b, v, x)?;
    let n = rows::node_count(b);
    let l = hold_defect(b, t, v, n);
    insert::push_node(b, v, x, t, l);
    active_list::join(b, n);
    scratch::wipe(t, 0, l);
    Ok(Answer::Node(n))
}
