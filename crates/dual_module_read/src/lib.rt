#![tactic(auto)]

// The calls that only read block and scratch, on memory that a host lends. Both are tested first (refusals 1 and 2), with the
// length of a lent list; the call without a list is in module `sound`.

ghost use Rattle.answers.specs.Outcome.{told};
ghost use Rattle.dual_module_read.specs.Read.{VertexRead, TableRead, ContactsRead, ContactsCounted, count_told, count_in};

use answers::Answer;
use calls::read;
use refusal::Refusal;

pub mod sound; // the call behind the tests

// The representative vertex of node n.
pub fn get_representative_vertex(b: &[i64], t: &[i64], n: usize) -> Result<Answer, Refusal>
    ensures { VertexRead b.now t.now n (told result) }
{
    memory_tests::refuse::refusal(b, t)?;
    sound::get_representative_vertex(b, t, n)
}

// The growth of every side is written to a list of two words for each edge.
pub fn read_table(b: &[i64], t: &[i64], list: &mut [i64]) -> Result<Answer, Refusal>
    ensures { TableRead b.now t.now list.old list.new (told result) }
{
    memory_tests::refuse::list_refusal(b, t, list.len(), 2)?;
    read::read_table(b, list);
    Ok(Answer::Done)
}

// The contacts are written to the front of a list of three words for each edge; how many there are.
pub fn contacts(b: &[i64], t: &[i64], list: &mut [i64]) -> Result<usize, Refusal>
    ensures { ContactsRead b.now t.now list.old list.new (count_told result)
        × ContactsCounted b.now t.now list.old (count_in result) }
{
    memory_tests::refuse::list_refusal(b, t, list.len(), 3)?;
    let n = contacts::contacts(b, list);
    Ok(n)
}
