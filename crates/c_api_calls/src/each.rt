// A call of a list, kind by kind, on memory that has passed the tests: w are its four words, `part` the five numbers of its answer.

ghost use Rattle.std.specs.Prelude.{◌≡◌, true, pos, length, get_or};
ghost use Rattle.graph.specs.Word.{word_at};
ghost use Rattle.answers.specs.Outcome.{Refused, told};
ghost use Rattle.answers.specs.Numbers.{answer_numbers, Tells};
ghost use Rattle.c_api_calls.specs.ListCall.{list_defect, circle_call, list_state, list_prepare, length_call, list_grow, list_advance, list_clear, list_vertex, list_node, list_gap};
ghost use Rattle.c_api_calls.specs.inner.Running.{Passed, CallDone};

use answers::Answer;
use dual_module::sound;
use dual_module::sound::Known;
use graph::words;
use refusal::Refusal;

// What is known after a call: whether the block is certainly sound, and whether the scratch is all zero.
#[derive(Clone, Copy)]
pub struct After {
    pub kept: bool,
    pub zero: bool,
}

// The answer is told, and what is known handed on.
fn tell_known(part: &mut [usize], k: Known) -> After
    requires { length part.old ≡ 5 }
    ensures { Tells (answer_numbers (told k.answer)) part.old part.new (length (answer_numbers (told k.answer)))
        × (result.kept ≡ k.kept) × (result.zero ≡ k.zero) }
{
    let a = k.answer;
    answers::tell(part, a);
    After {
        kept: k.kept,
        zero: k.zero,
    }
}

// The same of a call that keeps the block sound and leaves the scratch.
fn tell_plain(part: &mut [usize], a: Result<Answer, Refusal>, zero: bool) -> After
    requires { length part.old ≡ 5 }
    ensures { Tells (answer_numbers (told a)) part.old part.new (length (answer_numbers (told a)))
        × (result.kept ≡ true) × (result.zero ≡ zero) }
{
    answers::tell(part, a);
    After { kept: true, zero }
}

// No call: refused 3.
pub fn other(part: &mut [usize], zero: bool) -> After
    requires { length part.old ≡ 5 }
    ensures { Tells (answer_numbers (Refused 3)) part.old part.new 2 × (result.kept ≡ true) × (result.zero ≡ zero) }
{
    tell_plain(part, Err(Refusal::NoSuch), zero)
}

// ---- insertion, state

pub fn defect(b: &mut [i64], t: &mut [i64], w: &[i64], part: &mut [usize], zero: bool) -> After
    requires { Passed b.old t.old zero × (length w.now ≡ 4) × (length part.old ≡ 5) }
    ensures { CallDone b.old t.old (list_defect (word_at w.now 1) (word_at w.now 2))
        b.new t.new part.old part.new result.kept result.zero }
{
    let v = words::word(w, 1);
    let x = words::word(w, 2);
    let k = dual_module_insert::sound::insert_defect(b, t, v, x, zero);
    tell_known(part, k)
}

pub fn blossom(
    b: &mut [i64],
    t: &mut [i64],
    w: &[i64],
    circles: &[i64],
    part: &mut [usize],
    zero: bool,
) -> After
    requires { Passed b.old t.old zero × (length w.now ≡ 4) × (length part.old ≡ 5) }
    ensures { CallDone b.old t.old
        (circle_call circles.now (word_at w.now 1) (word_at w.now 2) (word_at w.now 3))
        b.new t.new part.old part.new result.kept result.zero }
{
    let x = words::word(w, 1);
    let y = words::word(w, 2);
    let z = words::word(w, 3);
    let end = y + z;
    if circles.len() < end {
        return other(part, zero);
    }
    let k = dual_module_insert::sound::insert_blossom(b, t, x, &circles[y..end], true, zero);
    tell_known(part, k)
}

pub fn state(b: &mut [i64], t: &[i64], w: &[i64], part: &mut [usize], zero: bool) -> After
    requires { Passed b.old t.now zero × (length w.now ≡ 4) × (length part.old ≡ 5) }
    ensures { CallDone b.old t.now (list_state (word_at w.now 1) (word_at w.now 2))
        b.new t.now part.old part.new result.kept result.zero }
{
    let n = words::word(w, 1);
    let x = words::word(w, 2);
    let a = sound::set_grow_state(b, t, n, x);
    tell_plain(part, a, zero)
}

// ---- preparation, length, growth

pub fn prepare(b: &mut [i64], t: &mut [i64], w: &[i64], part: &mut [usize], zero: bool) -> After
    requires { Passed b.old t.old zero × (length w.now ≡ 4) × (length part.old ≡ 5) }
    ensures { CallDone b.old t.old (list_prepare (word_at w.now 1) (word_at w.now 2))
        b.new t.new part.old part.new result.kept result.zero }
{
    let n = words::word(w, 1);
    let d = words::word(w, 2);
    let k = sound::prepare_dual_node_growth(b, t, n, d, true, zero);
    tell_known(part, k)
}

pub fn length(b: &mut [i64], t: &mut [i64], w: &[i64], part: &mut [usize], zero: bool) -> After
    requires { Passed b.old t.old zero × (length w.now ≡ 4) × (length part.old ≡ 5) }
    ensures { CallDone b.old t.old
        (length_call (word_at w.now 1) (word_at w.now 2) (word_at w.now 3))
        b.new t.new part.old part.new result.kept result.zero }
{
    let n = words::word(w, 1);
    let d = words::word(w, 2);
    let z = words::word(w, 3);
    if 1 < z {
        return other(part, zero);
    }
    let k = sound::compute_maximum_update_length_dual_node(b, t, n, d, z == 1, true, zero);
    tell_known(part, k)
}

pub fn grow(b: &mut [i64], t: &mut [i64], w: &[i64], part: &mut [usize], zero: bool) -> After
    requires { Passed b.old t.old zero × (length w.now ≡ 4) × (length part.old ≡ 5) }
    ensures { CallDone b.old t.old (list_grow (word_at w.now 1) (get_or w.now 2 (pos 0)))
        b.new t.new part.old part.new result.kept result.zero }
{
    let n = words::word(w, 1);
    let k = sound::grow_dual_node(b, t, n, w[2], true, zero);
    tell_known(part, k)
}

pub fn advance(b: &mut [i64], t: &mut [i64], w: &[i64], part: &mut [usize], zero: bool) -> After
    requires { Passed b.old t.old zero × (length w.now ≡ 4) × (length part.old ≡ 5) }
    ensures { CallDone b.old t.old (list_advance (word_at w.now 1))
        b.new t.new part.old part.new result.kept result.zero }
{
    let n = words::word(w, 1);
    let k = sound::advance(b, t, n, true, zero);
    tell_known(part, k)
}

pub fn clear(b: &mut [i64], t: &[i64], part: &mut [usize], zero: bool) -> After
    requires { Passed b.old t.now zero × (length part.old ≡ 5) }
    ensures { CallDone b.old t.now list_clear
        b.new t.now part.old part.new result.kept result.zero }
{
    let a = sound::clear(b, t);
    tell_plain(part, a, zero)
}

// ---- reading

pub fn vertex(b: &[i64], t: &[i64], w: &[i64], part: &mut [usize], zero: bool) -> After
    requires { Passed b.now t.now zero × (length w.now ≡ 4) × (length part.old ≡ 5) }
    ensures { CallDone b.now t.now (list_vertex (word_at w.now 1))
        b.now t.now part.old part.new result.kept result.zero }
{
    let n = words::word(w, 1);
    let a = dual_module_read::sound::get_representative_vertex(b, t, n);
    tell_plain(part, a, zero)
}

pub fn node(b: &[i64], t: &[i64], w: &[i64], part: &mut [usize], zero: bool) -> After
    requires { Passed b.now t.now zero × (length w.now ≡ 4) × (length part.old ≡ 5) }
    ensures { CallDone b.now t.now (list_node (word_at w.now 1))
        b.now t.now part.old part.new result.kept result.zero }
{
    let n = words::word(w, 1);
    let a = dual_module_node::sound::read_node(b, t, n);
    c_api_node::tell_node(part, a);
    After { kept: true, zero }
}

pub fn gap(b: &[i64], t: &[i64], w: &[i64], part: &mut [usize], zero: bool) -> After
    requires { Passed b.now t.now zero × (length w.now ≡ 4) × (length part.old ≡ 5) }
    ensures { CallDone b.now t.now (list_gap (word_at w.now 1))
        b.now t.now part.old part.new result.kept result.zero }
{
    let e = words::word(w, 1);
    let a = dual_module_gap::sound::edge_gap(b, t, e);
    c_api_gap::tell_gap(part, a);
    After { kept: true, zero }
}
