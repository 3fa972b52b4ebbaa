// The calls that insert a node, on memory that has passed the tests (refusals 1 and 2). What refuses the call itself (3 to 9) is tested
// first; only then the scratch is set to zero, unless it is known to be so, and the core runs.

ghost use Rattle.std.specs.Prelude.{◌≡◌, true, ◌&&◌, map};
ghost use Rattle.graph.specs.Word.{to_nat};
ghost use Rattle.graph.specs.Layout.{state_of, memory_refusal};
ghost use Rattle.calls.specs.Keeps.{blossom_keeps};
ghost use Rattle.answers.specs.Outcome.{told};
ghost use Rattle.dual_module.specs.inner.Known.{KnownZero};
ghost use Rattle.dual_module.specs.Called.{DefectCalled, BlossomCalled};

use answers::Answer;
use blossom::tested;
use calls::defect;
use dual_module::sound;
use dual_module::sound::Known;
use refusal::Refusal;

// The next node is a defect at vertex v, in grow state x. It keeps every sound block sound.
pub fn insert_defect(b: &mut [i64], t: &mut [i64], v: usize, x: usize, zero: bool) -> Known
    requires { (memory_refusal b.old t.old ≡ 0) × KnownZero zero t.old }
    ensures { DefectCalled b.old t.old v x b.new t.new (told result.answer)
        × (result.kept ≡ true) × KnownZero result.zero t.new }
{
    if let Err(refusal) = defect::defect_refusal(b, v, x) {
        return sound::as_before(Err(refusal), true, zero);
    }
    sound::clear_unless(t, zero);
    let answer = defect::insert_defect(b, t, v, x);
    Known {
        answer,
        kept: true,
        zero: true,
    }
}

// The next node is a blossom of the circle's nodes, in grow state x.
pub fn insert_blossom(
    b: &mut [i64],
    t: &mut [i64],
    x: usize,
    circle: &[i64],
    ask: bool,
    zero: bool,
) -> Known
    requires { (memory_refusal b.old t.old ≡ 0) × KnownZero zero t.old }
    ensures { BlossomCalled b.old t.old x circle.now b.new t.new (told result.answer)
        × (result.kept ≡ (ask && blossom_keeps (state_of b.old) x (map to_nat circle.now)))
        × KnownZero result.zero t.new }
{
    if let Err(refusal) = blossom::blossom_refusal(b, x, circle) {
        return sound::as_before(Err(refusal), ask, zero);
    }
    sound::clear_unless(t, zero);
    sound::after_core(tested::insert_blossom(b, t, x, circle, ask))
}
