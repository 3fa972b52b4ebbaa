#![tactic(auto)]

// A table in a file: its sizes, how many words it has, and the text of its verdict. docs/TABLE-FILE.md has the form of a file.

ghost use Rattle.std.specs.Prelude.{◌≡◌, ◌≤◌};
ghost use Rattle.refusal.specs.Refusal.{number};
ghost use Rattle.table_check.specs.Outcome.{Refused, verdict_told};
ghost use Rattle.table_file.specs.File.{file_sizes, file_words, verdict_text};

use refusal::Refusal;

// Whether the four sizes are in range.
pub fn sizes_fit(v: usize, e: usize, k: usize, n: usize) -> bool
    ensures { result ≡ file_sizes v e k n }
{
    (1 <= v) & ((v <= 1024) & ((1 <= e) & ((e <= 4096) & ((k <= v) & (n <= v)))))
}

// How many words a table of these sizes has.
pub fn words_of(v: usize, e: usize, k: usize, n: usize) -> usize
    requires { (v ≤ 1024) × (e ≤ 4096) × (k ≤ 1024) × (n ≤ 1024) }
    ensures { result ≡ file_words v e k n }
{
    4 + 5 * e + k + 2 * n + n * v
}

// The text of a refusal; a table is refused by no other than these two.
fn refused_text(refusal: Refusal) -> &'static str
    ensures { result.now ≡ verdict_text (Refused (number refusal)) }
{
    match refusal {
        Refusal::OutOfRange => "refused 4",
        _ => "refused 1",
    }
}

// The text of a verdict.
pub fn text(verdict: Result<bool, Refusal>) -> &'static str
    ensures { result.now ≡ verdict_text (verdict_told verdict) }
{
    match verdict {
        Ok(true) => "yes",
        Ok(false) => "no",
        Err(refusal) => refused_text(refusal),
    }
}
