// Insertion of a blossom. Where it is asked for, it tells beside its answer whether the block was certainly kept sound; where not, nothing
// is tested.

ghost use Rattle.std.specs.Prelude.{◌≡◌, ◌&&◌, map};
ghost use Rattle.graph.specs.Word.{to_nat};
ghost use Rattle.graph.specs.Layout.{state_of};
ghost use Rattle.answers.specs.Outcome.{told};
ghost use Rattle.calls.specs.Insert.{insert_blossom};
ghost use Rattle.calls.specs.Keeps.{blossom_keeps};
ghost use Rattle.calls.specs.inner.Reply.{RepliesInsert, Usable};

use answers::Answer;
use calls::tested::Tested;
use graph::{rows, words};
use pass::scratch;
use store::insert;

// The next node is a blossom of the circle, in grow state x.
pub fn insert_blossom(b: &mut [i64], t: &mut [i64], x: usize, circle: &[i64], ask: bool) -> Tested
    requires { Usable b.old t.old }
    ensures { RepliesInsert b.old b.new (told result.answer)
        (insert_blossom (state_of b.old) x (map to_nat circle.now))
        × (t.new ≡ t.old)
        × (result.kept ≡ (ask && blossom_keeps (state_of b.old) x (map to_nat circle.now))) }
{
    if let Err(refusal) = crate::blossom_refusal(b, x, circle) {
        return Tested {
            answer: Err(refusal),
            kept: ask,
        };
    }
    let n = rows::node_count(b);
    let joined = crate::join_circle(b, t, circle, n, ask);
    let l = joined.count;
    let class = rows::vertex_count(b) + words::word(circle, 0);
    insert::push_node(b, class, x, t, l);
    active_list::join(b, n);
    scratch::wipe(t, 0, l);
    Tested {
        answer: Ok(Answer::Node(n)),
        kept: joined.kept,
    }
}
