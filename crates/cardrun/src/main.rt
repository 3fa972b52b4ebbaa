#![tactic(auto)]

// The program: records from standard input, lines to standard output. It reads what is there, up to a buffer, runs every whole record in it, writes
// their lines, and only then reads again. Each record is the same step as in the exported call (record_step::one_record).

ghost use Rattle.std.specs.Prelude.{◌≡◌, true, false, ◌&&◌, ◌+◌, ◌-◌, ◌<◌, ◌≤◌, ltb, leb, length, take, drop, IfOk, OnErr};
ghost use Rattle.records.specs.Lines.{joined_lines};
ghost use Rattle.records.specs.Run.{ends};
ghost use Rattle.record_step.specs.Standing.{memory, Standing, MemorySuffices};
ghost use Rattle.lines_export.specs.Whole.{whole_at};
ghost use Rattle.cardrun.specs.Blocks.{BlockRun, BlockRan, BlockLost};

use lines_export::stream;
use lines_export::stream::Step;
use record_run::run;
use record_run::run::{After, Run};
use records::lines::Out;
use std::io;
use std::io::Read;

// ---- input

// What is there of the input, up to the end of the buffer, goes behind its first n bytes. How many bytes it is: 0 at the end of the input. The first
// n bytes stay, also where the input can't be read.
fn read_more(stdin: &mut impl Read, input: &mut [u8], n: usize) -> io::Result<usize>
    requires { n < length input.old }
    ensures kept { take n input.new ≡ take n input.old }
    ensures room { IfOk result (λ k. n + k ≤ length input.old) }
{
    stdin.read(&mut input[n..])
}

// The bytes from place i up to place n go to the front.
fn keep(input: &mut [u8], i: usize, n: usize)
    requires { (i ≤ n) × (n ≤ length input.old) }
    ensures { take (n - i) input.new ≡ take (n - i) (drop i input.old) }
{
    input.copy_within(i..n, 0);
}

// ---- whole records

// Whether one more record is run before the lines are written: the run has not ended, there is room for the lines of a record, and the next is whole.
fn another(input: &[u8], i: usize, stage: usize, at: usize, space: usize) -> bool
    requires { (i ≤ length input.now) × (at ≤ space) }
    ensures { (result ≡ ltb stage 3 && leb 16384 (space - at) && whole_at input.now i)
        × (whole_at input.now i ≡ false → length input.now ≤ i + 65536) }
{
    (stage < 3) & (16384 <= space - at) & stream::whole(input, i)
}

// Whole records from place i0 on, the first of which is whole: their lines, all that the definition gives, and where the next record begins.
fn run_some(
    input: &[u8],
    i0: usize,
    r0: Run,
    lines: &mut [u8],
    block: &mut [i64],
    scratch: &mut [i64],
    edges: &mut [i64],
    virtuals: &mut [i64],
) -> Step
    requires { (16384 ≤ length lines.old) × (whole_at input.now i0 ≡ true) × (r0.stage < 3)
        × (r0.record + length input.now < 18446744073709551615 + i0)
        × Standing (memory r0.stage r0.setup block.old edges.old virtuals.old)
        × MemorySuffices block.old scratch.old edges.old virtuals.old }
    ensures { BlockRun r0.record result.run.record
        (memory r0.stage r0.setup block.old edges.old virtuals.old)
        (memory result.run.stage result.run.setup block.new edges.new virtuals.new)
        (drop i0 input.now) (drop result.at input.now) (take result.out.at lines.new)
        × (result.out.at ≤ length lines.new) × (i0 < result.at) × (result.at ≤ length input.now)
        × (result.run.record + i0 ≤ r0.record + result.at) × (scratch.new ≡ scratch.old) }
{
    let mut r = r0;
    let mut o = Out { at: 0, full: false };
    let mut i = i0;
    while another(input, i, r.stage, o.at, lines.len()) {
        let t = stream::step_whole(input, i, r, o, lines, block, scratch, edges, virtuals);
        r = t.run;
        o = t.out;
        i = t.at;
    }
    Step {
        run: r,
        out: o,
        at: i,
    }
}

// ---- output

// The lines that the first n bytes hold are written.
fn write_out(rt: &impl Print, lines: &[u8], n: usize) -> io::Result<()>
    requires { n ≤ length lines.now }
{
    rt.write_all(&lines[0..n])
}

// Where a run stands, and where its next record begins.
#[derive(Clone, Copy)]
struct Place {
    run: Run,
    at: usize,
}

// Whole records from place i on, the first of which is whole, and their lines are written. Where these can't be written, the records were run.
fn tell_some(
    rt: &impl Print,
    input: &[u8],
    i: usize,
    r: Run,
    lines: &mut [u8],
    block: &mut [i64],
    scratch: &mut [i64],
    edges: &mut [i64],
    virtuals: &mut [i64],
) -> io::Result<Place>
    requires { (16384 ≤ length lines.old) × (whole_at input.now i ≡ true) × (r.stage < 3)
        × (r.record + length input.now < 18446744073709551615 + i)
        × Standing (memory r.stage r.setup block.old edges.old virtuals.old)
        × MemorySuffices block.old scratch.old edges.old virtuals.old }
    ensures ran { IfOk result (λ p. BlockRan r.record p.run.record
        (memory r.stage r.setup block.old edges.old virtuals.old)
        (memory p.run.stage p.run.setup block.new edges.new virtuals.new)
        (drop i input.now) (drop p.at input.now)) }
    ensures place { IfOk result (λ p. (i < p.at) × (p.at ≤ length input.now) × (p.run.record + i ≤ r.record + p.at)) }
    ensures lost { OnErr result (BlockLost r.record (memory r.stage r.setup block.old edges.old virtuals.old)
        block.new edges.new virtuals.new (drop i input.now)) }
    ensures kept { scratch.new ≡ scratch.old }
{
    let t = run_some(input, i, r, lines, block, scratch, edges, virtuals);
    let o = t.out;
    write_out(rt, lines, o.at)?;
    let p = t.run;
    Ok(Place { run: p, at: t.at })
}

// All whole records among the bytes at hand, and their lines are written. What is left has no whole record, unless the run has ended.
fn run_block(
    rt: &impl Print,
    input: &[u8],
    r0: Run,
    lines: &mut [u8],
    block: &mut [i64],
    scratch: &mut [i64],
    edges: &mut [i64],
    virtuals: &mut [i64],
) -> io::Result<Place>
    requires { (16384 ≤ length lines.old) × (r0.record + length input.now < 18446744073709551615)
        × Standing (memory r0.stage r0.setup block.old edges.old virtuals.old)
        × MemorySuffices block.old scratch.old edges.old virtuals.old }
    ensures ran { IfOk result (λ p. BlockRan r0.record p.run.record
        (memory r0.stage r0.setup block.old edges.old virtuals.old)
        (memory p.run.stage p.run.setup block.new edges.new virtuals.new)
        input.now (drop p.at input.now)) }
    ensures cut { IfOk result (λ p. (p.run.stage < 3 → whole_at input.now p.at ≡ false)
        × (p.run.stage < 3 → length input.now ≤ p.at + 65536)) }
    ensures place { IfOk result (λ p. (p.at ≤ length input.now) × (p.run.record ≤ r0.record + p.at)) }
    ensures lost { OnErr result (BlockLost r0.record (memory r0.stage r0.setup block.old edges.old virtuals.old)
        block.new edges.new virtuals.new input.now) }
    ensures kept { scratch.new ≡ scratch.old }
{
    let mut r = r0;
    let mut i = 0;
    while another(input, i, r.stage, 0, lines.len()) {
        let t = tell_some(rt, input, i, r, lines, block, scratch, edges, virtuals)?;
        r = t.run;
        i = t.at;
    }
    Ok(Place { run: r, at: i })
}

// ---- the end of the input

// The line of input that ends inside a record.
fn tell_cut(lines: &mut [u8], r: Run) -> After
    requires { (16384 ≤ length lines.old) × (r.record < 18446744073709551615) }
    ensures { (take result.out.at lines.new ≡ joined_lines (ends (r.record + 1) 3).lines)
        × (result.out.at ≤ length lines.new) × (result.run.stage ≡ 3) × (result.run.record ≡ r.record + 1) }
{
    run::cut(lines, r, Out { at: 0, full: false })
}

// The input ends with n bytes at hand, which are no whole record.
fn finish(rt: &impl Print, lines: &mut [u8], r: Run, n: usize) -> io::Result<()>
    requires { (16384 ≤ length lines.old) × (r.record < 18446744073709551615) }
{
    if n != 0 {
        let t = tell_cut(lines, r);
        let o = t.out;
        write_out(rt, lines, o.at)?;
    }
    Ok(())
}

// ---- all of it

// The whole records among the first n bytes, and their lines are written; the rest goes to the front, and how many bytes it has. Where a line can't be
// written, the bytes stay.
fn turn(
    rt: &impl Print,
    input: &mut [u8],
    n: usize,
    r: Run,
    lines: &mut [u8],
    block: &mut [i64],
    scratch: &mut [i64],
    edges: &mut [i64],
    virtuals: &mut [i64],
) -> io::Result<Place>
    requires { (n ≤ length input.old) × (16384 ≤ length lines.old) × (r.record + n < 18446744073709551615)
        × Standing (memory r.stage r.setup block.old edges.old virtuals.old)
        × MemorySuffices block.old scratch.old edges.old virtuals.old }
    ensures ran { IfOk result (λ p. BlockRan r.record p.run.record
        (memory r.stage r.setup block.old edges.old virtuals.old)
        (memory p.run.stage p.run.setup block.new edges.new virtuals.new)
        (take n input.old) (take p.at input.new)) }
    ensures cut { IfOk result (λ p. (p.run.stage < 3 → whole_at (take p.at input.new) 0 ≡ false) × (p.run.stage < 3 → p.at ≤ 65536)) }
    ensures place { IfOk result (λ p. (p.at ≤ n) × (p.run.record + p.at ≤ r.record + n)) }
    ensures lost { OnErr result (BlockLost r.record (memory r.stage r.setup block.old edges.old virtuals.old)
        block.new edges.new virtuals.new (take n input.old)) }
    ensures stays { OnErr result (input.new ≡ input.old) }
    ensures kept { scratch.new ≡ scratch.old }
{
    let t = run_block(rt, &input[0..n], r, lines, block, scratch, edges, virtuals)?;
    let i = t.at;
    keep(input, i, n);
    let p = t.run;
    Ok(Place { run: p, at: n - i })
}

// All of the input. A proved loop has to end, and nothing says that input does: this one stops at a number of bytes that no input has.
fn take_input(
    rt: &impl Print,
    stdin: &mut impl Read,
    input: &mut [u8],
    lines: &mut [u8],
    block: &mut [i64],
    scratch: &mut [i64],
    edges: &mut [i64],
    virtuals: &mut [i64],
) -> io::Result<()>
    requires { (length input.old ≡ 131072) × (16384 ≤ length lines.old) × MemorySuffices block.old scratch.old edges.old virtuals.old }
{
    let mut r = run::fresh();
    let mut n = 0;
    let mut count = 0;
    while (r.stage < 3) & (count < 9223372036854775807) {
        let got = read_more(stdin, input, n)?;
        if got == 0 {
            return finish(rt, lines, r, n);
        }
        let t = turn(
            rt,
            input,
            n + got,
            r,
            lines,
            block,
            scratch,
            edges,
            virtuals,
        )?;
        r = t.run;
        n = t.at;
        count += got;
    }
    Ok(())
}

fn main(rt: HostRuntime) -> io::Result<()> {
    let mut stdin = rt.stdin();
    let mut input = [0u8; 131072];
    let mut lines = [0u8; 65536];
    let mut block = [0i64; 4096];
    let mut scratch = [0i64; 576];
    let mut edges = [0i64; 384];
    let mut virtuals = [0i64; 65];
    take_input(
        &rt,
        &mut stdin,
        &mut input,
        &mut lines,
        &mut block,
        &mut scratch,
        &mut edges,
        &mut virtuals,
    )
}
