// The run of a journal without answers: of each reply the bytes are counted and none is written. No room is looked at.
ghost use Rattle.std.specs.Prelude.{List, [], ℕ, ◌≤◌, length};
ghost use Rattle.commands.specs.Register.{register_routes, ample_run};
ghost use Rattle.forest.specs.Promise.{words_needed};
ghost use Rattle.run.specs.Promise.{capacities_of, UnansweredPromise};
ghost use Rattle.run.specs.Inside.Unanswered.{without_answers, Countable, Counted};
ghost use Rattle.run.specs.Inside.Course.{ends-without_answers};
ghost use Rattle.run.specs.Inside.FurtherUnanswered.{can_be_counted, counted_on};

use crate::answers::Answers;
use crate::{Pace, Progress, run_from};
use forest::{Network, Table, words_needed};
use numbers::Limits;
use refusals::Refusal;
use step::Reply;

#[derive(Clone, Copy)]
pub(crate) struct Count;

impl Answers for Count {
    ghost End = { List ℕ };

    ghost account = { without_answers };

    ghost buffer = { λ x. [] };

    ghost same = { λ x y. Unit {0} };

    ghost can_take = { λ written reply x. Countable written reply };

    ghost takes = { λ t shape written reply x y result. Counted written reply result };

    fn take(&mut self, _t: &Table, pace: Pace, reply: Reply) -> Result<usize, Refusal> {
        Ok(pace.written + reply.size())
    }

    ghost ends = { ends-without_answers };

    ghost is_same = { λ x. tt };

    ghost still_same = { λ x y z first later. tt };

    ghost stays_same = { λ t shape written reply x y result taken. tt };

    ghost can = { λ p order width journal old new reply x ready done. can_be_counted ready done };

    ghost goes_on = { λ p order width journal old new reply x y result ready done taken. counted_on ready done taken };
}

// The whole run: the one run, its replies counted, under a promise of its own.
pub fn run_unanswered(journal: &[u8], work: &mut [u32], limits: Limits) -> Progress
    requires { (limits.vertices ≤ 4096) × (limits.edges ≤ 8192) × (words_needed limits ≤ length work.old) × (length journal.now ≤ 65536) }
    ensures { UnansweredPromise limits (ample_run register_routes (capacities_of limits) journal.now) result work.old work.new }
{
    let own = words_needed(limits);
    let mut n = Network::new(&mut work[..own], limits);
    run_from(journal, &mut n, &mut Count)
}
