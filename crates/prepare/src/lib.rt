#![tactic(auto)]

// Preparation of a node: passes until none is called for.

ghost use Rattle.std.specs.Prelude.{◌+◌, ◌≤◌};
ghost use Rattle.graph.specs.State.{vertex_count};
ghost use Rattle.graph.specs.Layout.{state_of};
ghost use Rattle.pass.specs.Prepare.{one_pass, prepare_node};
ghost use Rattle.pass.specs.inner.Ready.{Ready, Preparable, AfterPass, AfterPreparation};

use graph::dual_node::UP;
use grow_pass::grow;
use shrink_pass::shrink;

// One pass over node n, growing in direction 1 and shrinking else: whether it calls for another.
pub fn prepare_dual_node_growth_single(b: &mut [i64], t: &mut [i64], n: usize, d: usize) -> bool
    requires { Ready b.old t.old n × Preparable (state_of b.old) n d }
    ensures { AfterPass b.old b.new t.old t.new n (one_pass (state_of b.old) n d) result }
{
    if d == UP {
        grow::grow_pass(b, t, n)
    } else {
        shrink::shrink_pass(b, t, n)
    }
}

// Node n is prepared in direction d: the number of passes, at most V + 1. It can be prepared so again.
pub fn prepare_dual_node_growth(b: &mut [i64], t: &mut [i64], n: usize, d: usize) -> usize
    requires { Ready b.old t.old n × Preparable (state_of b.old) n d }
    ensures { AfterPreparation b.old b.new t.old t.new
        (prepare_node (state_of b.old) n d) result
        × (result ≤ vertex_count (state_of b.old) + 1) × Preparable (state_of b.new) n d }
{
    let mut passes = 0;
    let mut more = true;
    while more {
        more = prepare_dual_node_growth_single(b, t, n, d);
        passes += 1;
    }
    passes
}
