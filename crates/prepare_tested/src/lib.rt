#![tactic(auto)]

// Preparation of a node with a test beside it: whether a sound state is certainly left sound.

ghost use Rattle.std.specs.Prelude.{◌≡◌, ◌&&◌, ◌||◌, ◌+◌, ◌≤◌, eqb};
ghost use Rattle.graph.specs.State.{vertex_count, up, down};
ghost use Rattle.graph.specs.Layout.{state_of};
ghost use Rattle.pass.specs.Prepare.{prepare_node};
ghost use Rattle.pass.specs.KeepsSound.{keeps_sound};
ghost use Rattle.pass.specs.inner.Ready.{Ready, Preparable, AfterPreparation};

use graph::dual_node::{DOWN, UP};

pub mod own; // before a pass: what goes is the node's own
pub mod held; // after the last pass: what is listed is held

// How many passes a preparation has made, and whether a sound state was certainly left sound.
#[derive(Clone, Copy)]
pub struct Preparation {
    pub passes: usize,
    pub kept: bool,
}

// Node n is prepared for shrinking, and tested.
pub fn prepare_tested(b: &mut [i64], t: &mut [i64], n: usize) -> Preparation
    requires { Ready b.old t.old n × Preparable (state_of b.old) n down }
    ensures { AfterPreparation b.old b.new t.old t.new
        (prepare_node (state_of b.old) n down) result.passes
        × (result.passes ≤ vertex_count (state_of b.old) + 1) × Preparable (state_of b.new) n down
        × (result.kept ≡ keeps_sound (state_of b.old) n) }
{
    let mut passes = 0;
    let mut more = true;
    let mut freed_own = true;
    while more {
        let fine = own::pass_own(b, n);
        freed_own = freed_own & fine;
        more = prepare::prepare_dual_node_growth_single(b, t, n, DOWN);
        passes += 1;
    }
    let holds = held::holds_lists(b, n);
    Preparation {
        passes,
        kept: freed_own & holds,
    }
}

// Node n is prepared in direction d. Where it is asked for, `kept` says whether a sound state was certainly left sound; for growing it always is.
pub fn prepare_asked(b: &mut [i64], t: &mut [i64], n: usize, d: usize, ask: bool) -> Preparation
    requires { Ready b.old t.old n × Preparable (state_of b.old) n d }
    ensures { AfterPreparation b.old b.new t.old t.new
        (prepare_node (state_of b.old) n d) result.passes
        × (result.passes ≤ vertex_count (state_of b.old) + 1) × Preparable (state_of b.new) n d
        × (result.kept ≡ (ask && (eqb d up || keeps_sound (state_of b.old) n))) }
{
    if ask & (d != UP) {
        return prepare_tested(b, t, n);
    }
    let passes = prepare::prepare_dual_node_growth(b, t, n, d);
    Preparation { passes, kept: ask }
}
