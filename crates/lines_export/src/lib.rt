#![tactic(auto)]

// The call for a host: records in, lines out.

ghost use Rattle.std.specs.Prelude.{◌≡◌, ◌+◌, ◌<◌, ◌≤◌, length};
ghost use Rattle.records.specs.Run.{ends, LinesCalled};
ghost use Rattle.record_step.specs.Standing.{memory, Standing, MemorySuffices, Stepped};
ghost use Rattle.records.specs.Write.{LinesPut};

pub mod stream;

use crate::stream::Step;
use record_run::run;
use record_run::run::Run;
use records::lines::Out;

// Input that ends inside a record.
fn cut(records: &[u8], i: usize, r: Run, o: Out, lines: &mut [u8]) -> Step
    requires { (i < length records.now) × (r.record ≤ i) × (o.at ≤ length lines.old) }
    ensures { LinesPut lines.old o.at o.full lines.new result.out.at result.out.full
        (ends (r.record + 1) 3).lines
        × (result.run.stage ≡ 3) × (result.run.record ≡ r.record + 1) × (result.at ≡ length records.now) }
{
    let t = run::cut(lines, r, o);
    let p = t.run;
    let q = t.out;
    Step {
        run: p,
        out: q,
        at: records.len(),
    }
}

// The record that begins at place i.
fn step_on(
    records: &[u8],
    i: usize,
    r: Run,
    o: Out,
    lines: &mut [u8],
    block: &mut [i64],
    scratch: &mut [i64],
    edges: &mut [i64],
    virtuals: &mut [i64],
) -> Step
    requires { (i < length records.now) × (r.record ≤ i) × (o.at ≤ length lines.old) × (r.stage < 3)
        × Standing (memory r.stage r.setup block.old edges.old virtuals.old)
        × MemorySuffices block.old scratch.old edges.old virtuals.old }
    ensures { Stepped records.now i result.at (r.record + 1)
        (memory r.stage r.setup block.old edges.old virtuals.old)
        (memory result.run.stage result.run.setup block.new edges.new virtuals.new)
        lines.old o.at o.full lines.new result.out.at result.out.full
        × (result.run.record ≡ r.record + 1) × (scratch.new ≡ scratch.old) }
{
    if stream::whole(records, i) {
        return stream::step_whole(records, i, r, o, lines, block, scratch, edges, virtuals);
    }
    cut(records, i, r, o, lines)
}

// The lines of the records are written over the front of `lines`, up to the first that does not fit; how many bytes they are. The words are lent.
fn write_lines(
    records: &[u8],
    lines: &mut [u8],
    block: &mut [i64],
    scratch: &mut [i64],
    edges: &mut [i64],
    virtuals: &mut [i64],
) -> usize
    requires { MemorySuffices block.old scratch.old edges.old virtuals.old }
    ensures { LinesCalled records.now lines.old lines.new result }
{
    let mut r = run::fresh();
    let mut o = Out { at: 0, full: false };
    let mut i = 0;
    while (i < records.len()) & (r.stage < 3) & !o.full {
        let t = step_on(records, i, r, o, lines, block, scratch, edges, virtuals);
        r = t.run;
        o = t.out;
        i = t.at;
    }
    o.at
}

// The same with words of its own.
#[unsafe(no_mangle)]
pub extern "C" fn cardrun_lines(records: &[u8], lines: &mut [u8]) -> usize
    ensures { LinesCalled records.now lines.old lines.new result }
{
    let mut block = [0i64; 4096];
    let mut scratch = [0i64; 576];
    let mut edges = [0i64; 384];
    let mut virtuals = [0i64; 65];
    write_lines(
        records,
        lines,
        &mut block,
        &mut scratch,
        &mut edges,
        &mut virtuals,
    )
}
