// What is done with the reply to each command of a run: its answer is written, or only counted.
ghost use Rattle.std.specs.Prelude.{List, ℕ, Result, Ok, ◌+◌};
ghost use Rattle.numbers.specs.declared.Shape.{Shape};
ghost use Rattle.refusals.specs.declared.Refusal.{Refusal};
ghost use Rattle.reading.specs.declared.read.Order.{Order};
ghost use Rattle.reading.specs.Inside.Reads.{meaning};
ghost use Rattle.step.specs.declared.Reply.{Reply};
ghost use Rattle.step.specs.Promise.{shape_after, StepPromise};
ghost use Rattle.run.specs.declared.Progress.{Progress};
ghost use Rattle.run.specs.Inside.Runs.{Account, Ready, GoesOn, further};
ghost use Rattle.run.specs.Inside.Course.{AtEnds};

use crate::Pace;
use forest::Table;
use refusals::Refusal;
use step::Reply;

pub(crate) trait Answers {
    // What a run by it comes to, by an account over an answer buffer.
    ghost End: { Type 0 };

    ghost account: { Account End };

    ghost buffer: { Self → List ℕ };

    // It is over the same buffer; a reply can be taken; and what taking one does.
    ghost same: { Self → Self → Type 0 };

    ghost can_take: { ℕ → Reply → Self → Type 0 };

    ghost takes: { List ℕ → Shape → ℕ → Reply → Self → Self → Result ℕ Refusal → Type 0 };

    // Takes the reply to a command, which has left the table so, behind those that the run has taken: gives how many bytes all their answers
    // have, or refuses it.
    fn take(&mut self, t: &Table, pace: Pace, reply: Reply) -> Result<usize, Refusal>
        requires { can_take pace.written reply self.old }
        ensures { takes t.now.words.now t.now.shape pace.written reply self.old self.new result };

    ghost ends: { AtEnds account };

    ghost is_same: { (x : Self) → same x x };

    ghost still_same: { (x y z : Self) → same x y → same y z → same x z };

    ghost stays_same: { (t : List ℕ) (shape : Shape) (written : ℕ) (reply : Reply) (x y : Self) (result : Result ℕ Refusal) → takes t shape written reply x y result → same x y };

    // At a command that is carried out its reply can be taken, and so the run goes on.
    ghost can: { (p : Progress) (order : Order) (width : ℕ) (journal old new : List ℕ) (reply : Reply) (x : Self) → Ready account p order width journal old (buffer x) → StepPromise p.shape (meaning order) old new (Ok reply) → can_take p.written reply x };

    ghost goes_on: { (p : Progress) (order : Order) (width : ℕ) (journal old new : List ℕ) (reply : Reply) (x y : Self) (result : Result ℕ Refusal) → Ready account p order width journal old (buffer x) → StepPromise p.shape (meaning order) old new (Ok reply) → takes new (shape_after p.shape reply) p.written reply x y result → GoesOn account p journal old new (buffer x) (buffer y) (further p (shape_after p.shape reply) (p.place + 1 + width) result) };
}
