// A run, record by record.

ghost use Rattle.std.specs.Prelude.{◌≡◌, List, ◌+◌, ◌<◌, ◌≤◌, ℤ, length};
ghost use Rattle.graph.specs.Layout.{state_of};
ghost use Rattle.pass.specs.Scratch.{zero_scratch};
ghost use Rattle.calls.specs.Calls.{respond};
ghost use Rattle.records.specs.Record.{decoded};
ghost use Rattle.records.specs.Lines.{lines_for};
ghost use Rattle.record_call.specs.Call.{call_in, OfKind};
ghost use Rattle.record_step.specs.Standing.{Runs, Asked, part_of, memory, Standing, Gathers, MemorySuffices, RecordStepped};
ghost use Rattle.records.specs.Write.{LinesPut};

use graph::sizes;
use record_call::one_call;
use record_run::run;
use record_run::run::{After, Run};
use records::lines::Out;
use records::setup::Setup;
use records::{bytes, opening, record, setup, table, told};
use refusal::Refusal;

// The lines of the call of a body on an opened graph go behind the others.
fn ask(
    lines: &mut [u8],
    o: Out,
    k: usize,
    s: Setup,
    kind: usize,
    body: &[u8],
    block: &mut [i64],
    scratch: &mut [i64],
) -> Out
    requires { (o.at ≤ length lines.old) × Runs s block.old × OfKind body.now kind × (4 ≤ kind)
        × (4096 ≤ length block.old) × (576 ≤ length scratch.old)
        × (scratch.old ≡ zero_scratch (length scratch.old)) }
    ensures { LinesPut lines.old o.at o.full lines.new result.at result.full
        (lines_for k (respond (state_of (part_of s block.old)) (call_in body.now)).outcome)
        × Asked s block.old block.new (call_in body.now)
        × (scratch.new ≡ scratch.old) }
{
    let m = sizes::block_length(s.v, s.e, s.n, s.l);
    if kind == 10 {
        return table::table(lines, o, k, &block[0..m]);
    }
    if kind == 12 {
        return table::contacts(lines, o, k, &block[0..m]);
    }
    let q = sizes::scratch_length(s.v, s.e);
    let a = one_call::call(&mut block[0..m], &mut scratch[0..q], kind, body);
    told::answer(lines, o, k, a)
}

// The first call, which opens the graph.
fn first(
    lines: &mut [u8],
    r: Run,
    o: Out,
    kind: usize,
    body: &[u8],
    block: &mut [i64],
    scratch: &mut [i64],
    edges: &[i64],
    virtuals: &[i64],
) -> After
    requires { (o.at ≤ length lines.old) × (r.stage ≡ 1) × Gathers r.setup edges.now virtuals.now
        × OfKind body.now kind × (4 ≤ kind) × MemorySuffices block.old scratch.old edges.now virtuals.now }
    ensures { RecordStepped r.record
        (memory r.stage r.setup block.old edges.now virtuals.now)
        (memory result.run.stage result.run.setup block.new edges.now virtuals.now)
        lines.old o.at o.full lines.new result.out.at result.out.full (decoded body.now)
        × (result.run.record ≡ r.record) × (scratch.new ≡ scratch.old) }
{
    let s = r.setup;
    if let Err(refusal) = opening::open(s, block, scratch, edges, virtuals) {
        return run::stop(lines, r, o, refusal);
    }
    let out = ask(lines, o, r.record, s, kind, body, block, scratch);
    let run = Run { stage: 2, ..r };
    After { run, out }
}

// A record that asks for a call.
fn asked(
    lines: &mut [u8],
    r: Run,
    o: Out,
    kind: usize,
    body: &[u8],
    block: &mut [i64],
    scratch: &mut [i64],
    edges: &[i64],
    virtuals: &[i64],
) -> After
    requires { (o.at ≤ length lines.old) × (r.stage < 3)
        × Standing (memory r.stage r.setup block.old edges.now virtuals.now) × OfKind body.now kind
        × (4 ≤ kind) × MemorySuffices block.old scratch.old edges.now virtuals.now }
    ensures { RecordStepped r.record
        (memory r.stage r.setup block.old edges.now virtuals.now)
        (memory result.run.stage result.run.setup block.new edges.now virtuals.now)
        lines.old o.at o.full lines.new result.out.at result.out.full (decoded body.now)
        × (result.run.record ≡ r.record) × (scratch.new ≡ scratch.old) }
{
    if r.stage == 0 {
        return run::stop(lines, r, o, Refusal::NoSuch);
    }
    if r.stage == 1 {
        return first(lines, r, o, kind, body, block, scratch, edges, virtuals);
    }
    let s = r.setup;
    let out = ask(lines, o, r.record, s, kind, body, block, scratch);
    After { run: r, out }
}

// A record of sizes, of an edge or of a virtual vertex.
fn gather(
    lines: &mut [u8],
    r: Run,
    o: Out,
    kind: usize,
    body: &[u8],
    edges: &mut [i64],
    virtuals: &mut [i64],
) -> After
    requires { (o.at ≤ length lines.old) × (r.stage < 3) × (r.stage ≡ 1 → r.setup.virtuals ≤ 64) × OfKind body.now kind
        × (kind ≤ 3) × (384 ≤ length edges.old) × (65 ≤ length virtuals.old) }
    ensures { ((block : List ℤ)
        → RecordStepped r.record (memory r.stage r.setup block edges.old virtuals.old)
        (memory result.run.stage result.run.setup block edges.new virtuals.new) lines.old
        o.at o.full lines.new result.out.at result.out.full (decoded body.now))
        × (result.run.record ≡ r.record) }
{
    if kind == 1 {
        if r.stage == 0 {
            let setup = setup::sizes(body);
            let run = Run {
                stage: 1,
                setup,
                ..r
            };
            return After { run, out: o };
        }
        return run::stop(lines, r, o, Refusal::NoSuch);
    }
    if r.stage == 1 {
        if kind == 2 {
            let setup = setup::add_edge(r.setup, edges, body);
            let run = Run {
                stage: 1,
                setup,
                ..r
            };
            return After { run, out: o };
        }
        let setup = setup::add_virtual(r.setup, virtuals, body);
        let run = Run {
            stage: 1,
            setup,
            ..r
        };
        return After { run, out: o };
    }
    run::stop(lines, r, o, Refusal::NoSuch)
}

// The next record, whose body this is.
pub fn step_record(
    lines: &mut [u8],
    r0: Run,
    o: Out,
    body: &[u8],
    block: &mut [i64],
    scratch: &mut [i64],
    edges: &mut [i64],
    virtuals: &mut [i64],
) -> After
    requires { (o.at ≤ length lines.old) × (r0.stage < 3) × (r0.record < 18446744073709551615)
        × Standing (memory r0.stage r0.setup block.old edges.old virtuals.old) × (length body.now ≤ 65535)
        × MemorySuffices block.old scratch.old edges.old virtuals.old }
    ensures { RecordStepped (r0.record + 1)
        (memory r0.stage r0.setup block.old edges.old virtuals.old)
        (memory result.run.stage result.run.setup block.new edges.new virtuals.new)
        lines.old o.at o.full lines.new result.out.at result.out.full (decoded body.now)
        × (result.run.record ≡ r0.record + 1) × (scratch.new ≡ scratch.old) }
{
    let r = Run {
        record: r0.record + 1,
        ..r0
    };
    if record::well_formed(body) {
        let kind = bytes::pair(body, 0);
        if kind <= 3 {
            return gather(lines, r, o, kind, body, edges, virtuals);
        }
        return asked(lines, r, o, kind, body, block, scratch, edges, virtuals);
    }
    run::stop(lines, r, o, Refusal::NoSuch)
}
