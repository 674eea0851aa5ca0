// Each journal run alone over the working table, with the greatest capacities and its answers dropped.
ghost use Rattle.std.specs.Prelude.{true, ◌≡◌, ◌≤◌, length};
ghost use Rattle.commands.specs.Bytes.{all_bytes};
ghost use Rattle.commands.specs.Entry.{work_needed};
ghost use Rattle.commands.specs.Join.{join_capacities};
ghost use Rattle.forest.specs.Promise.{SameBeyond};
ghost use Rattle.joining.specs.Inside.Alone.{greatest, alone_of, CountsBoth};

use crate::seams::Counts;
use forest::clear;
use numbers::GREATEST;
use reading::LONGEST;
use refusals::Refusal;
use run::unanswered::run_unanswered;
use run::work_needed;

// How many cabinets and spans a network has.
#[derive(Clone, Copy)]
pub struct Size {
    pub cabinets: u16,
    pub spans: u16,
}

// Runs a journal alone, and gives the size of its network. One that is too long is refused without a run.
fn run_alone(journal: &[u8], work: &mut [u32]) -> Result<Size, Refusal>
    requires { work_needed join_capacities ≤ length work.old }
    ensures { (result ≡ alone_of journal.now) × SameBeyond greatest work.old work.new × (all_bytes journal.now ≡ true) }
{
    if LONGEST < journal.len() {
        return Err(Refusal::RefusedJournal);
    }
    let p = run_unanswered(journal, work, GREATEST);
    match p.refusal {
        Some(_) => Err(Refusal::RefusedJournal),
        None => Ok(Size {
            cabinets: p.shape.vertices as u16,
            spans: p.shape.edges as u16,
        }),
    }
}

// Runs both journals alone, one after the other, in a working table that is long enough, and clears it behind them. Gives what is known of both
// networks.
pub fn count_both(first: &[u8], second: &[u8], work: &mut [u32]) -> Result<Counts, Refusal>
    ensures { CountsBoth first.now second.now result work.old work.new }
{
    let needed = work_needed(GREATEST);
    if work.len() < needed {
        return Err(Refusal::ShortBuffer);
    }
    let one = run_alone(first, work);
    let two = run_alone(second, work);
    clear(work, needed);
    let one = one?;
    let two = two?;
    Ok(Counts {
        cabinets: one.cabinets,
        spans: one.spans,
        others: two.cabinets,
    })
}
