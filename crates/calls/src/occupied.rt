// The test for refusal 5: it looks at the vertex, then at its sides by rising edge, and ends with the first held one.

ghost use Rattle.std.specs.Prelude.{◌≡◌, ◌<◌};
ghost use Rattle.graph.specs.Basic.{any};
ghost use Rattle.graph.specs.State.{vertex_count, sides_at};
ghost use Rattle.graph.specs.Layout.{state_of};
ghost use Rattle.graph.specs.Form.{Formed};
ghost use Rattle.calls.specs.Insert.{occupied};
ghost use Rattle.calls.specs.Occupied.{vertex_decides, is_held, read_until_held, sides_read};

use graph::{side, sides, vertex};

// What the test found, and how many sides it read.
#[derive(Clone, Copy)]
pub struct Looked {
    pub occupied: bool,
    pub read: usize,
}

// Whether vertex v is virtual, a defect or held.
fn vertex_decides(b: &[i64], v: usize) -> bool
    requires { Formed b.now × (v < vertex_count (state_of b.now)) }
    ensures { result ≡ vertex_decides (state_of b.now) v }
{
    (vertex::virtual_flag(b, v) != 0)
        | (vertex::defect_flag(b, v) != 0)
        | (vertex::holder(b, v) != 0)
}

// Whether some side at vertex v is held: the sides are read until one is.
fn held_side(b: &[i64], v: usize) -> Looked
    requires { Formed b.now × (v < vertex_count (state_of b.now)) }
    ensures { (result.occupied ≡ any (is_held (state_of b.now)) (sides_at (state_of b.now) v))
        × (result.read ≡ read_until_held (state_of b.now) (sides_at (state_of b.now) v)) }
{
    let l = sides::sides_len(b, v);
    for i in 0..l {
        let s = sides::vertex_side(b, v, i);
        if side::holder(b, s) != 0 {
            return Looked {
                occupied: true,
                read: i + 1,
            };
        }
    }
    Looked {
        occupied: false,
        read: l,
    }
}

// Whether vertex v is virtual, a defect, held, or has a held side; no side is read where the vertex decides.
pub fn occupied(b: &[i64], v: usize) -> Looked
    requires { Formed b.now × (v < vertex_count (state_of b.now)) }
    ensures { (result.occupied ≡ occupied (state_of b.now) v) × (result.read ≡ sides_read (state_of b.now) v) }
{
    if vertex_decides(b, v) {
        Looked {
            occupied: true,
            read: 0,
        }
    } else {
        held_side(b, v)
    }
}
