// The run of a journal, from an empty network to its end or to the command that is refused.
#![tactic(auto)]

ghost use Rattle.std.specs.Prelude.{◌≡◌, ◌≤◌, length};
ghost use Rattle.commands.specs.Entry.{work_needed};
ghost use Rattle.forest.specs.Promise.{words_needed};
ghost use Rattle.run.specs.Promise.{capacities_of, whole_of, RunPromise};
ghost use Rattle.run.specs.Inside.Runs.{ended, going, at_start, comes_to, Underway, Ready, GoesOn};

mod answered;
mod answers;
pub mod unanswered;

use crate::answered::Buffer;
use crate::answers::Answers;
use forest::{Network, words_needed};
use numbers::{Limits, Shape};
use reading::read::Order;
use reading::reader::Reader;
use refusals::Refusal;
use step::step;

// How far a run has come: the network's size, the place of the next command, the commands accepted, the bytes of their answers, and the
// refusal that ended the run, if one did.
#[derive(Clone, Copy)]
pub struct Progress {
    pub shape: Shape,
    pub place: usize,
    pub commands: u32,
    pub written: usize,
    pub refusal: Option<Refusal>,
}

// How far a run has come in its journal: the place of the next command, the commands accepted, and the bytes of their answers.
#[derive(Clone, Copy)]
pub(crate) struct Pace {
    pub(crate) place: usize,
    pub(crate) commands: u32,
    pub(crate) written: usize,
}

impl Pace {
    // A run that has ended so.
    fn end(self, shape: Shape, refusal: Option<Refusal>) -> Progress
        ensures { result ≡ ended shape self refusal }
    {
        Progress {
            shape,
            place: self.place,
            commands: self.commands,
            written: self.written,
            refusal,
        }
    }
}

// How many words a run uses beside those that the table takes.
const SPARE: usize = 64;

// W, the words of the working table that a run uses.
pub fn work_needed(limits: Limits) -> usize
    ensures { result ≡ work_needed (capacities_of limits) }
{
    words_needed(limits) + SPARE
}

// One command read whole, with so many bytes of operands: carried out, and its reply taken; or refused.
fn run_order<A: Answers>(
    journal: &[u8],
    n: &mut Network,
    answers: &mut A,
    pace: Pace,
    order: Order,
    width: usize,
) -> Result<Pace, Refusal>
    requires { Ready A.account (going n.old.table.shape pace) order width journal.now n.old.table.words.now (A.buffer answers.old) }
    ensures goes_on { GoesOn A.account (going n.old.table.shape pace) journal.now n.old.table.words.now n.new.table.words.now (A.buffer answers.old) (A.buffer answers.new) (comes_to n.new.table.shape result) }
    ensures same { A.same answers.old answers.new }
{
    let place = Reader::new(journal, pace.place).further(width).place;
    let reply = step(n, order)?;
    let written = answers.take(&n.table, pace, reply)?;
    Ok(Pace {
        place,
        commands: pace.commands + 1,
        written,
    })
}

// What stands at the run's place.
fn run_one<A: Answers>(
    journal: &[u8],
    n: &mut Network,
    answers: &mut A,
    pace: Pace,
) -> Result<Pace, Refusal>
    requires { Underway A.account (going n.old.table.shape pace) journal.now n.old.table.words.now (A.buffer answers.old) }
    ensures goes_on { GoesOn A.account (going n.old.table.shape pace) journal.now n.old.table.words.now n.new.table.words.now (A.buffer answers.old) (A.buffer answers.new) (comes_to n.new.table.shape result) }
    ensures same { A.same answers.old answers.new }
{
    let taken = Reader::new(journal, pace.place).take()?;
    run_order(journal, n, answers, pace, taken.command, taken.width)
}

// The run of a journal from a network, as its answers are taken. A command that is refused for want of room has been carried out: the size
// that is told is the one before it.
fn run_from<A: Answers>(journal: &[u8], n: &mut Network, answers: &mut A) -> Progress
    requires { (length journal.now ≤ 65536) × A.account.Fits (at_start n.old.table.shape) journal.now n.old.table.words.now (A.buffer answers.old) }
    ensures has_come { A.account.here result (A.buffer answers.new) ≡ A.account.later (at_start n.old.table.shape) journal.now n.old.table.words.now (A.buffer answers.old) }
    ensures same { A.same answers.old answers.new }
{
    let mut pace = Pace {
        place: 0,
        commands: 0,
        written: 0,
    };
    // by the reader's place, and no iterator (reading/src/reader.rt); a match, since a refusal ends the run with what it had come to
    while pace.place < journal.len() {
        let shape = n.table.shape;
        match run_one(journal, n, answers, pace) {
            Ok(further) => pace = further,
            Err(refusal) => return pace.end(shape, Some(refusal)),
        }
    }
    pace.end(n.table.shape, None)
}

// The whole run. The network is lent its own words alone, so those beyond them stay as they are.
pub fn run(journal: &[u8], work: &mut [u32], answers: &mut [u8], limits: Limits) -> Progress
    requires { (limits.vertices ≤ 4096) × (limits.edges ≤ 8192) × (words_needed limits ≤ length work.old) × (length journal.now ≤ 65536) }
    ensures { RunPromise limits (whole_of (capacities_of limits) journal.now answers.old) result work.old work.new answers.old answers.new }
{
    let own = words_needed(limits);
    let mut n = Network::new(&mut work[..own], limits);
    let mut buffer = Buffer { bytes: answers };
    run_from(journal, &mut n, &mut buffer)
}
