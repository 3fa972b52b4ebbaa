#![tactic(auto)]

// Many calls on one block, exported for C. Memory is tested before the first of them, and then only where it is not certain that a call
// kept the block sound.

ghost use Rattle.std.specs.Prelude.{◌≡◌, ◌+◌, ◌*◌, ◌≤◌, ◌<◌, min, length};
ghost use Rattle.graph.specs.Word.{word_limit};
ghost use Rattle.answers.specs.Numbers.{Tells};
ghost use Rattle.c_api_calls.specs.ListCall.{list_call_of, list_call_at, list_calls};
ghost use Rattle.c_api_calls.specs.Outcome.{calls_told, standing_refusal};
ghost use Rattle.c_api_calls.specs.Told.{call_count, calls_numbers, CallsMade, CallsTold};
ghost use Rattle.c_api_calls.specs.inner.Running.{Between, Tested, CallStepped, CallSteppedAt, Ran};

use refusal::Refusal;

pub mod each; // a call of a list, kind by kind
pub mod kinds; // the call that four words are

// How many calls were made, and how often memory was tested.
#[derive(Clone, Copy)]
pub struct Made {
    pub calls: usize,
    pub tests: usize,
}

// Where a list of calls stands: how many were made, how often memory was tested, what refuses it, and what is known of it.
#[derive(Clone, Copy)]
pub struct Standing {
    pub made: usize,
    pub tests: usize,
    pub refusal: Option<Refusal>, // what refuses every call from here on
    pub known: bool, // the block is sound
    pub zero: bool, // the scratch is all zero
}

// Memory is tested, where it is not known to be sound or refused.
fn test(b: &[i64], t: &[i64], s: Standing) -> Standing
    requires { Between b.now t.now (standing_refusal s.refusal) s.known s.zero × (s.tests ≤ s.made) × (s.made < word_limit) }
    ensures { Tested b.now t.now s.tests (standing_refusal s.refusal) s.known result.tests (standing_refusal result.refusal) result.known
        × (result.made ≡ s.made) × (result.zero ≡ s.zero) }
{
    if s.known | s.refusal.is_some() {
        return s;
    }
    match memory_tests::refuse::refusal(b, t) {
        Ok(()) => Standing {
            tests: s.tests + 1,
            refusal: None,
            known: true,
            ..s
        },
        Err(refusal) => Standing {
            tests: s.tests + 1,
            refusal: Some(refusal),
            known: false,
            ..s
        },
    }
}

// One call more, its words w.
fn step(
    b: &mut [i64],
    t: &mut [i64],
    w: &[i64],
    circles: &[i64],
    part: &mut [usize],
    s: Standing,
) -> Standing
    requires { Between b.old t.old (standing_refusal s.refusal) s.known s.zero × (s.tests ≤ s.made) × (s.made < word_limit)
        × (length w.now ≡ 4) × (length part.old ≡ 5) }
    ensures { CallStepped b.old t.old (list_call_of circles.now w.now) b.new t.new
        part.old part.new s.tests (standing_refusal s.refusal) s.known result.tests (standing_refusal result.refusal) result.known result.zero
        × (result.made ≡ s.made + 1) × (result.tests ≤ result.made) }
{
    let s = test(b, t, s);
    if let Some(refusal) = s.refusal {
        answers::tell_refusal(part, refusal);
        return Standing {
            made: s.made + 1,
            ..s
        };
    }
    let a = kinds::make(b, t, w, circles, part, s.zero);
    Standing {
        made: s.made + 1,
        tests: s.tests,
        refusal: None,
        known: a.kept,
        zero: a.zero,
    }
}

// The next call of the list, its answer in its five numbers.
fn step_at(
    b: &mut [i64],
    t: &mut [i64],
    words: &[i64],
    circles: &[i64],
    answers: &mut [usize],
    s: Standing,
) -> Standing
    requires { Between b.old t.old (standing_refusal s.refusal) s.known s.zero × (s.tests ≤ s.made) × (s.made < word_limit)
        × (4 * s.made + 4 ≤ length words.now) × (5 * s.made + 5 ≤ length answers.old) }
    ensures { CallSteppedAt b.old t.old (list_call_at circles.now words.now s.made) b.new t.new
        s.made answers.old answers.new s.tests (standing_refusal s.refusal) s.known result.tests (standing_refusal result.refusal) result.known result.zero
        × (result.made ≡ s.made + 1) × (result.tests ≤ result.made) }
{
    let i = s.made;
    step(
        b,
        t,
        &words[4 * i..4 * i + 4],
        circles,
        &mut answers[5 * i..5 * i + 5],
        s,
    )
}

// The calls are made, as many as have room for their answer.
fn make_all(
    b: &mut [i64],
    t: &mut [i64],
    words: &[i64],
    circles: &[i64],
    answers: &mut [usize],
) -> Standing
    ensures { Ran b.old t.old (list_calls circles.now words.now (call_count words.now answers.old))
        answers.old b.new t.new answers.new result.made result.tests }
{
    let m = (words.len() / 4).min(answers.len() / 5);
    let mut s = Standing {
        made: 0,
        tests: 0,
        refusal: None,
        known: false,
        zero: false,
    };
    for _ in 0..m {
        s = step_at(b, t, words, circles, answers, s);
    }
    s
}

// The same, where the words are calls of four.
fn make_calls(
    b: &mut [i64],
    t: &mut [i64],
    words: &[i64],
    circles: &[i64],
    answers: &mut [usize],
) -> Result<Made, Refusal>
    ensures { CallsMade b.old t.old words.now circles.now answers.old
        b.new t.new answers.new (calls_told result) }
{
    if words.len() % 4 != 0 {
        return Err(Refusal::WrongLength);
    }
    let s = make_all(b, t, words, circles, answers);
    let (calls, tests) = (s.made, s.tests);
    Ok(Made { calls, tests })
}

// The numbers of its answer are written over the front of the list; how many they are.
fn tell_calls(list: &mut [usize], a: Result<Made, Refusal>) -> usize
    requires { 5 ≤ length list.old }
    ensures { Tells (calls_numbers (calls_told a)) list.old list.new result }
{
    match a {
        Ok(made) => answers::front(list, &[20, made.calls, made.tests]),
        Err(refusal) => answers::tell_refusal(list, refusal),
    }
}

// Calls are made one after another, four words each; the answer of each stands in five numbers of `answers`. Made are those that have room.
#[unsafe(no_mangle)]
pub extern "C" fn fb_calls(
    block: &mut [i64],
    scratch: &mut [i64],
    calls: &[i64],
    circles: &[i64],
    answers: &mut [usize],
    answer: &mut [usize],
) -> usize
    ensures { CallsTold block.old scratch.old calls.now circles.now answers.old
        block.new scratch.new answers.new answer.old answer.new result }
{
    if answer.len() < 5 {
        return c_api::answer::refuse_short(answer);
    }
    let r = make_calls(block, scratch, calls, circles, answers);
    tell_calls(answer, r)
}
