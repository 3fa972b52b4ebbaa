#![tactic(auto)]

// A change of weights on memory that a host lends. Block, scratch and list are tested first (refusals 1 and 2), then what
// refuses the change (3, 4, 16); until then nothing is written.

ghost use Rattle.std.specs.Prelude.{◌≡◌};
ghost use Rattle.refusal.specs.Refusal.{refusal_number};
ghost use Rattle.answers.specs.Outcome.{told};
ghost use Rattle.dual_module_modifier.specs.Called.{pairs_refusal, ModifierCalled};

use answers::Answer;
use refusal::Refusal;

// The refusal of block, scratch and a list of m words.
fn refusal(b: &[i64], t: &[i64], m: usize) -> Result<(), Refusal>
    ensures { refusal_number result ≡ pairs_refusal b.now t.now m }
{
    if m % 2 == 0 {
        memory_tests::refuse::refusal(b, t)
    } else {
        Err(Refusal::WrongLength)
    }
}

// The edges that the list names take the weights beside them, until the next clear.
pub fn load_edge_modifier(b: &mut [i64], t: &[i64], pairs: &[i64]) -> Result<Answer, Refusal>
    ensures { ModifierCalled b.old t.now pairs.now b.new (told result) }
{
    refusal(b, t, pairs.len())?;
    edge_modifier::modifier_refusal(b, pairs)?;
    edge_modifier::load_edge_modifier(b, pairs)
}
