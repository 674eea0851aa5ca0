// The caller's answer buffer: each answer is written behind those before it. Room is tested here and nowhere else.
ghost use Rattle.std.specs.Prelude.{◌≡◌, refl};
ghost use Rattle.std.proofs.Common.{◌∙◌};
ghost use Rattle.run.specs.Inside.Runs.{Behind, with_answers, Answerable, Answered};
ghost use Rattle.run.specs.Inside.Course.{ends-with_answers};
ghost use Rattle.run.specs.Inside.FurtherAnswered.{answerable, answered_on};

use crate::Pace;
use crate::answers::Answers;
use forest::Table;
use refusals::Refusal;
use step::Reply;
use writing::write_reply;

#[derive(Drop)]
pub(crate) struct Buffer<'a> {
    pub bytes: &'a mut [u8],
}

impl Answers for Buffer<'_> {
    ghost End = { Behind };

    ghost account = { with_answers };

    ghost buffer = { λ x. x.bytes.now };

    ghost same = { λ x y. y.bytes.ghost_name ≡ x.bytes.ghost_name };

    ghost can_take = { λ written reply x. Answerable written reply x.bytes.now };

    ghost takes = { λ t shape written reply x y result. Answered written t shape reply x.bytes.now y.bytes.now result × (y.bytes.ghost_name ≡ x.bytes.ghost_name) };

    fn take(&mut self, t: &Table, pace: Pace, reply: Reply) -> Result<usize, Refusal> {
        let size = reply.size();
        if self.bytes.len() - pace.written < size {
            return Err(Refusal::NoRoom);
        }
        write_reply(t, &mut self.bytes[pace.written..], reply);
        Ok(pace.written + size)
    }

    ghost ends = { ends-with_answers };

    ghost is_same = { λ x. refl };

    ghost still_same = { λ x y z first later. later ∙ first };

    ghost stays_same = { λ t shape written reply x y result taken. taken.1 };

    ghost can = { λ p order width journal old new reply x ready done. answerable ready done };

    ghost goes_on = { λ p order width journal old new reply x y result ready done taken. answered_on ready done _ _ taken.0 };
}
