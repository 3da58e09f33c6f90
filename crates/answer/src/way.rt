// The ways of asking: with a list for the values, or with none.
ghost use Rattle.std.specs.Prelude.{◌≡◌};
ghost use Rattle.calculus.specs.Model.{outcome_of};
ghost use Rattle.instance.specs.Run.{model_of};
ghost use Rattle.query.specs.Named.{query_of};
ghost use Rattle.answer.specs.Ask.{ask as askOf};
ghost use Rattle.answer.specs.Numbers.{TellsVerdict};
ghost use Rattle.answer.specs.Ways.{lent_by, left_by};

use super::ask::ask;
use super::asked::Asked;
use super::unlisted::ask_unlisted;
use instance::header::Header;

// An enum and no closure: `lent_by`, by which `ask_by` and `rerun` promise, speaks of it.
#[derive(Clone, Copy)]
pub enum Way {
    Listed,
    Unlisted,
}

// Asks by a way; the buffer is used by the listed way only.
pub fn ask_by(
    way: Way,
    header: Header,
    instance: &[u32],
    query: &[u32],
    candidate: &[u32],
    buffer: &mut [u32],
    budget: u32,
) -> Asked
    ensures answer { result ≡ askOf header instance.now query.now candidate.now (lent_by way buffer.old) budget }
    ensures buffer { buffer.new ≡ left_by way header instance.now query.now candidate.now buffer.old }
    ensures told { TellsVerdict result (askOf header instance.now query.now
        candidate.now (lent_by way buffer.old) budget)
        (outcome_of (model_of header instance.now candidate.now)
        (query_of header.arities query.now)) }
{
    match way {
        Way::Listed => ask(header, instance, query, candidate, buffer, budget),
        Way::Unlisted => ask_unlisted(header, instance, query, candidate, budget),
    }
}
