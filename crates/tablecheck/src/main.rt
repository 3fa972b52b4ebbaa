#![tactic(auto)]

// The program: tables from other decoders, one after another from standard input, and for each a line with its verdict. The rows of distances
// are read one at a time. docs/TABLE-FILE.md has the form of a file.

ghost use Rattle.std.specs.Prelude.{◌≡◌, true, ◌*◌, ◌≤◌, ◌<◌, length, replicate, IfOk, IfSome, OnErr};
ghost use Rattle.table_check.specs.Outcome.{verdict_told};
ghost use Rattle.table_refuse.specs.Refuse.{sizes_right};
ghost use Rattle.tablecheck.specs.File.{RowsRead, RowsBegun};
ghost use Rattle.graph.specs.Word.{word_limit};

use graph::words;
use refusal::Refusal;
use std::io;
use std::io::Read;
use table_check::stream;
use table_refuse::refuse;
use table_words::table::Table;

// ---- reading

// Words of bytes, little-endian.
fn decode(bytes: &[u8], list: &mut [i64])
    requires { 8 * length list.old ≤ length bytes.now }
{
    for (word, part) in list.iter_mut().zip(bytes.as_chunks::<8>().0) {
        *word = i64::from_le_bytes(*part);
    }
}

// An input of words, which are read through a buffer of 1,024.
#[derive(Drop)]
struct WordReader<R> {
    input: R,
    bytes: [u8; 8192],
}

impl<R: Read> WordReader<R> {
    // At most 1,024 words are read; whether all of them were there.
    fn read_some(&mut self, list: &mut [i64]) -> io::Result<bool>
        requires { length list.old ≤ 1024 }
    {
        let n = 8 * list.len();
        if input::read_full(&mut self.input, &mut self.bytes[0..n])? < n {
            return Ok(false);
        }
        decode(&self.bytes[0..n], list);
        Ok(true)
    }

    // All words of the list are read; whether they were there.
    fn read_list(&mut self, list: &mut [i64]) -> io::Result<bool> {
        for part in list.chunks_mut(1024) {
            if !self.read_some(part)? {
                return Ok(false);
            }
        }
        Ok(true)
    }

    // So many words are read and passed over; whether they were there.
    fn pass_over(&mut self, count: usize) -> io::Result<bool> {
        let mut left = count;
        while 0 < left {
            let n = left.min(1024);
            if input::read_full(&mut self.input, &mut self.bytes[0..8 * n])? < 8 * n {
                return Ok(false);
            }
            left -= n;
        }
        Ok(true)
    }
}

// ---- one table

// Whether it is right, or what refuses it.
type Verdict = Result<bool, Refusal>;

// None stands for a table inside which the input ends.

// The rows, one at a time, and the verdict behind the last. Where one can't be read, the marks are those of the rows before it.
fn rows<R: Read>(
    input: &mut WordReader<R>,
    m: &mut [usize],
    table: &Table,
    row: &mut [i64],
) -> io::Result<Option<Verdict>>
    requires { (table.now.v ≤ 1024) × (table.now.e ≤ 4096) × (length row.old ≡ table.now.v) × (length table.now.defects.now ≤ 1024)
        × (length table.now.duals.now ≡ length table.now.defects.now) × (length table.now.growths.now ≡ 2 * table.now.e)
        × (sizes_right table.now.v table.now.e table.now.edges.now ≡ true) × (m.old ≡ replicate 1024 0) }
    ensures told { IfOk result (λ x. IfSome x (λ verdict. RowsRead table.now.v table.now.e table.now.edges.now table.now.virtuals.now
        table.now.defects.now table.now.duals.now table.now.growths.now (verdict_told verdict))) }
    ensures lost { OnErr result (RowsBegun table.now.v table.now.e table.now.edges.now table.now.virtuals.now table.now.defects.now
        table.now.duals.now table.now.growths.now m.new) }
{
    let mut k = stream::begin(table);
    for i in 0..table.defects.len() {
        if !input.read_some(row)? {
            return Ok(None);
        }
        k = stream::next(k, m, table, row, i);
    }
    Ok(Some(stream::end(k, m, table.e, table.edges, table.growths)))
}

// The rows of a table whose other lists are read.
fn checked<R: Read>(
    input: &mut WordReader<R>,
    table: &Table,
    row: &mut [i64],
) -> io::Result<Option<Verdict>>
    requires { (table.now.v ≤ 1024) × (table.now.e ≤ 4096) × (length row.old ≡ table.now.v) × (length table.now.defects.now ≤ 1024)
        × (length table.now.duals.now ≡ length table.now.defects.now) × (length table.now.growths.now ≡ 2 * table.now.e) }
{
    if !refuse::sizes_right(table.v, table.e, table.edges) {
        return Ok(Some(Err(Refusal::OutOfRange)));
    }
    let mut m = [0usize; 1024];
    rows(input, &mut m, table, row)
}

// A table of these sizes, in lists of its own: they are read, then its rows.
fn sized<R: Read>(
    input: &mut WordReader<R>,
    v: usize,
    e: usize,
    k: usize,
    n: usize,
) -> io::Result<Option<Verdict>>
    requires { (v ≤ 1024) × (e ≤ 4096) × (k ≤ 1024) × (n ≤ 1024) }
{
    let mut edges = [0i64; 12288];
    let mut virtuals = [0i64; 1024];
    let mut defects = [0i64; 1024];
    let mut duals = [0i64; 1024];
    let mut growths = [0i64; 8192];
    let mut row = [0i64; 1024];
    let whole = input.read_list(&mut edges[0..3 * e])?
        && input.read_list(&mut virtuals[0..k])?
        && input.read_list(&mut defects[0..n])?
        && input.read_list(&mut duals[0..n])?
        && input.read_list(&mut growths[0..2 * e])?;
    if !whole {
        return Ok(None);
    }
    let table = Table {
        v,
        e,
        edges: &edges[0..3 * e],
        virtuals: &virtuals[0..k],
        defects: &defects[0..n],
        duals: &duals[0..n],
        growths: &growths[0..2 * e],
    };
    checked(input, &table, &mut row[0..v])
}

// A table that is refused: its other words are passed over.
fn refused<R: Read>(
    input: &mut WordReader<R>,
    left: usize,
    refusal: Refusal,
) -> io::Result<Option<Verdict>> {
    if input.pass_over(left)? {
        Ok(Some(Err(refusal)))
    } else {
        Ok(None)
    }
}

// A table of these sizes; its other words are passed over where they are not as many as the sizes say.
fn counted<R: Read>(
    input: &mut WordReader<R>,
    left: usize,
    v: usize,
    e: usize,
    k: usize,
    n: usize,
) -> io::Result<Option<Verdict>>
    requires { left < word_limit }
{
    if !table_file::sizes_fit(v, e, k, n) {
        return refused(input, left, Refusal::OutOfRange);
    }
    if 4 + left != table_file::words_of(v, e, k, n) {
        return refused(input, left, Refusal::WrongLength);
    }
    sized(input, v, e, k, n)
}

// A table of `count` words.
fn table<R: Read>(input: &mut WordReader<R>, count: usize) -> io::Result<Option<Verdict>>
    requires { count < word_limit }
{
    if count < 4 {
        return refused(input, count, Refusal::WrongLength);
    }
    let mut head = [0i64; 4];
    if !input.read_some(&mut head)? {
        return Ok(None);
    }
    let v = words::word(&head, 0);
    let e = words::word(&head, 1);
    let k = words::word(&head, 2);
    let n = words::word(&head, 3);
    counted(input, count - 4, v, e, k, n)
}

// What the input has next.
enum Step {
    Table(Verdict),
    Cut, // a table inside which the input ends
    End,
}

// The next table: its count of words, then the words.
fn next<R: Read>(input: &mut WordReader<R>) -> io::Result<Step> {
    let got = input::read_full(&mut input.input, &mut input.bytes[0..8])?;
    if got == 0 {
        return Ok(Step::End);
    }
    if got < 8 {
        return Ok(Step::Cut);
    }
    let mut count = [0i64; 1];
    decode(&input.bytes[0..8], &mut count);
    match table(input, words::word(&count, 0))? {
        Some(verdict) => Ok(Step::Table(verdict)),
        None => Ok(Step::Cut),
    }
}

// ---- the lines

// The line of table k.
fn tell(rt: &impl Print, k: usize, verdict: Verdict) -> io::Result<()> {
    let text = table_file::text(verdict);
    println!(rt; "{k} {text}")
}

// All tables. A proved loop has to end, and nothing says that input does: this one stops at a number of tables that no input has.
fn tables<R: Read>(rt: &impl Print, input: &mut WordReader<R>) -> io::Result<()> {
    for k in 1..9223372036854775807 {
        let (verdict, more) = match next(input)? {
            Step::Table(verdict) => (verdict, true),
            Step::Cut => (Err(Refusal::WrongLength), false),
            Step::End => return Ok(()),
        };
        tell(rt, k, verdict)?;
        if !more {
            break;
        }
    }
    Ok(())
}

fn main(rt: HostRuntime) -> io::Result<()> {
    let mut input = WordReader {
        input: rt.stdin(),
        bytes: [0u8; 8192],
    };
    tables(&rt, &mut input)
}
