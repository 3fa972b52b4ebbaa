#![tactic(auto)]

// The program: for each small patch, by its number from 1 on, whether each of its vertices reaches vertex 3.

ghost use Rattle.std.specs.Prelude.{◌≡◌, false, [], ◌∷◌, ◌≤◌, length, take};
ghost use Rattle.records.specs.Lines.{joined_lines};
ghost use Rattle.records.specs.Write.{LinesPut};
ghost use Rattle.small_patches_list.specs.Listing.{patch_line, listing};

use records::lines;
use records::lines::Out;
use small_patches::reach;
use std::io;

// The line of graph k goes behind the others.
fn tell(lines: &mut [u8], o: Out, k: usize) -> Out
    requires { o.at ≤ length lines.old }
    ensures { LinesPut lines.old o.at o.full lines.new result.at result.full (patch_line k ∷ []) }
{
    if reach::each_reaches(k) {
        lines::tell(lines, o, k, b"yes", &[])
    } else {
        lines::tell(lines, o, k, b"no", &[])
    }
}

// The lines of graphs 1 to 728, as far as they fit.
fn tell_all(lines: &mut [u8]) -> Out
    ensures { LinesPut lines.old 0 false lines.new result.at result.full listing }
{
    let mut o = Out { at: 0, full: false };
    for k in 1..729 {
        o = tell(lines, o, k);
    }
    o
}

// All of them, in 128 bytes a line, and how many bytes they take.
fn listing(lines: &mut [u8; 93184]) -> usize
    ensures { (take result lines.new ≡ joined_lines listing) × (result ≤ length lines.new) }
{
    let o = tell_all(lines);
    o.at
}

fn main(rt: HostRuntime) -> io::Result<()> {
    let mut lines = [0u8; 93184];
    let n = listing(&mut lines);
    rt.write_all(&lines[0..n])
}
