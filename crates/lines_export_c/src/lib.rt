#![tactic(auto)]

// The call of `lines_export` in an archive for C: a library's own exports stay out of one.

ghost use Rattle.records.specs.Run.{LinesCalled};

// The lines of the records are written over the front of `lines`, up to the first that does not fit; how many bytes
// they are.
#[unsafe(no_mangle)]
pub extern "C" fn cardrun_lines(records: &[u8], lines: &mut [u8]) -> usize
    ensures { LinesCalled records.now lines.old lines.new result }
{
    lines_export::cardrun_lines(records, lines)
}
