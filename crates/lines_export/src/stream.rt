// Records in memory: whether a whole one begins at a place, and the step of one that does.

ghost use Rattle.std.specs.Prelude.{◌≡◌, true, false, ◌+◌, ◌-◌, ◌<◌, ◌≤◌, length, take, drop};
ghost use Rattle.records.specs.Record.{pair_at, decoded};
ghost use Rattle.record_step.specs.Standing.{memory, Standing, MemorySuffices, RecordStepped};
ghost use Rattle.lines_export.specs.Whole.{whole_at};

use record_run::run::Run;
use record_step::one_record;
use records::bytes;
use records::lines::Out;

// Where a run stands after a record, how far its lines go, and where the next record begins.
#[derive(Clone, Copy)]
pub struct Step {
    pub run: Run,
    pub out: Out,
    pub at: usize,
}

// Whether a whole record begins at place i. If not, no more bytes are there than a record has.
pub fn whole(records: &[u8], i: usize) -> bool
    requires { i ≤ length records.now }
    ensures { (result ≡ whole_at records.now i) × (result ≡ false → length records.now ≤ i + 65536) }
{
    let n = records.len() - i;
    if n < 2 {
        return false;
    }
    bytes::pair(records, i) <= n - 2
}

// The record that begins at place i, where it is whole.
pub fn step_whole(
    records: &[u8],
    i: usize,
    r: Run,
    o: Out,
    lines: &mut [u8],
    block: &mut [i64],
    scratch: &mut [i64],
    edges: &mut [i64],
    virtuals: &mut [i64],
) -> Step
    requires { (whole_at records.now i ≡ true) × (o.at ≤ length lines.old) × (r.stage < 3)
        × (r.record < 18446744073709551615)
        × Standing (memory r.stage r.setup block.old edges.old virtuals.old)
        × MemorySuffices block.old scratch.old edges.old virtuals.old }
    ensures { RecordStepped (r.record + 1)
        (memory r.stage r.setup block.old edges.old virtuals.old)
        (memory result.run.stage result.run.setup block.new edges.new virtuals.new)
        lines.old o.at o.full lines.new result.out.at result.out.full
        (decoded (take (result.at - (i + 2)) (drop (i + 2) records.now)))
        × (result.at ≡ i + 2 + pair_at records.now i) × (result.at ≤ length records.now)
        × (result.run.record ≡ r.record + 1) × (scratch.new ≡ scratch.old) }
{
    let a = i + 2;
    let e = a + bytes::pair(records, i);
    let t = one_record::step_record(lines, r, o, &records[a..e], block, scratch, edges, virtuals);
    let p = t.run;
    let q = t.out;
    Step {
        run: p,
        out: q,
        at: e,
    }
}
