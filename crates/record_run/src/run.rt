// A run between two records: its start, and its end with a refusal.

ghost use Rattle.std.specs.Prelude.{◌≡◌, ◌+◌, ◌<◌, ◌≤◌, length};
ghost use Rattle.records.specs.Run.{ends};
ghost use Rattle.records.specs.Write.{LinesPut};

use records::lines::Out;
use records::setup::Setup;
use records::told;
use refusal::{Numbered, Refusal};

#[derive(Clone, Copy)]
pub struct Run {
    pub stage: usize, // 0 no record so far, 1 before the opening, 2 opened, 3 ended
    pub record: usize, // how many records were read
    pub setup: Setup,
}

// Where a run stands after a record, and how far its lines go.
#[derive(Clone, Copy)]
pub struct After {
    pub run: Run,
    pub out: Out,
}

// A run before its first record.
pub fn fresh() -> Run
    ensures { (result.stage ≡ 0) × (result.record ≡ 0) }
{
    let setup = Setup {
        v: 0,
        e: 0,
        n: 0,
        l: 0,
        edges: 0,
        virtuals: 0,
        bad: false,
    };
    Run {
        stage: 0,
        record: 0,
        setup,
    }
}

// The run ends with this refusal.
pub fn stop<R: Numbered>(lines: &mut [u8], r: Run, o: Out, refusal: R) -> After
    requires { o.at ≤ length lines.old }
    ensures { LinesPut lines.old o.at o.full lines.new result.out.at result.out.full
        (ends r.record (R.number_of refusal)).lines
        × (result.run.stage ≡ 3) × (result.run.record ≡ r.record) }
{
    let out = told::answer(lines, o, r.record, Err(refusal));
    let run = Run { stage: 3, ..r };
    After { run, out }
}

// Input that ends inside a record.
pub fn cut(lines: &mut [u8], r: Run, o: Out) -> After
    requires { (o.at ≤ length lines.old) × (r.record < 18446744073709551615) }
    ensures { LinesPut lines.old o.at o.full lines.new result.out.at result.out.full
        (ends (r.record + 1) 3).lines
        × (result.run.stage ≡ 3) × (result.run.record ≡ r.record + 1) }
{
    let next = Run {
        record: r.record + 1,
        ..r
    };
    stop(lines, next, o, Refusal::NoSuch)
}
