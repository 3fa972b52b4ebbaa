#![tactic(auto)]

// Replays record streams. Standard input has frames: the bytes of records and of lines (4 bytes each, little-endian), then the records, then the
// lines that they must give. Prints how many frames were replayed, and how many of them gave other lines.

ghost use Rattle.std.specs.Prelude.{◌≡◌, ◌+◌, ◌≤◌, ◌<◌, IfOk, if◌then◌else◌, length};

use records::bytes;
use std::io;
use std::io::Read;

// Whether the records of a frame give the wanted lines.
fn replay(records: &[u8], wanted: &[u8], lines: &mut [u8]) -> bool {
    let k = lines_export::cardrun_lines(records, lines);
    &lines[0..k] == wanted
}

// The next frame is read and replayed: whether it gave its lines. None where there is no frame.
fn next(
    input: &mut impl Read,
    records: &mut [u8],
    wanted: &mut [u8],
    lines: &mut [u8],
) -> io::Result<Option<bool>> {
    let mut head = [0u8; 8];
    if input::read_full(input, &mut head)? < 8 {
        return Ok(None);
    }
    let m = bytes::four(&head, 0);
    let n = bytes::four(&head, 4);
    if records.len() < m {
        return Ok(Some(false));
    }
    if wanted.len() < n {
        return Ok(Some(false));
    }
    if input::read_full(input, &mut records[0..m])? < m {
        return Ok(Some(false));
    }
    if input::read_full(input, &mut wanted[0..n])? < n {
        return Ok(Some(false));
    }
    Ok(Some(replay(&records[0..m], &wanted[0..n], lines)))
}

fn tell(rt: &impl Print, what: &[u8], n: usize) -> io::Result<()> {
    rt.write_all(what)?;
    println!(rt; "{n}")
}

// How many frames were read, and how many of them gave other lines.
#[derive(Clone, Copy)]
struct Count {
    frames: usize,
    differ: usize,
}

// The count behind one more frame, which gave its lines or others.
fn counted(c: Count, as_wanted: bool) -> Count
    requires { (c.differ ≤ c.frames) × (c.frames < 1000000) }
    ensures frames { result.frames ≡ c.frames + 1 }
    ensures differ { result.differ ≡ (if as_wanted then c.differ else c.differ + 1) }
{
    Count {
        frames: c.frames + 1,
        differ: c.differ + usize::from(!as_wanted),
    }
}

// All frames, up to a million.
fn replay_all(
    input: &mut impl Read,
    records: &mut [u8],
    wanted: &mut [u8],
    lines: &mut [u8],
) -> io::Result<Count> {
    let mut count = Count {
        frames: 0,
        differ: 0,
    };
    for _ in 0..1000000usize {
        let Some(as_wanted) = next(input, records, wanted, lines)? else {
            break;
        };
        count = counted(count, as_wanted);
    }
    Ok(count)
}

fn main(rt: HostRuntime) -> io::Result<()> {
    let mut records = [0u8; 32768];
    let mut wanted = [0u8; 32768];
    let mut lines = [0u8; 32768];
    let mut input = rt.stdin();
    let c = replay_all(&mut input, &mut records, &mut wanted, &mut lines)?;
    tell(&rt, b"replayed: ", c.frames)?;
    tell(&rt, b"with other lines: ", c.differ)
}
