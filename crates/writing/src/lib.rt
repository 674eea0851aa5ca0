// Writing what is to be answered into what is left of the answer buffer. That there is room is for the caller to see to.
// (Where a writer takes the buffer with a place, and no tail of it: as storing says.)
#![tactic(auto)]

ghost use Rattle.std.specs.Prelude.{◌≡◌, ◌≤◌, length};
ghost use Rattle.std.proofs.lemmas.List.Edits.{sets};
ghost use Rattle.commands.specs.Answer.{plain, answer_bytes};
ghost use Rattle.commands.specs.Entry.{over};
ghost use Rattle.step.specs.Promise.{finding_answer, reply_answer, finding_size, reply_size, ReplyFits};

pub mod items;
pub mod notice;
pub mod route;
pub mod write;

use crate::notice::write_span;
use crate::route::write_routes;
use crate::write::{write_flag, write_list, write_option};
use forest::{Readable, VertexGroups, bridge_at, cut_at};
use step::{Finding, Listed, Reply};
use storing::put_numbers;

// The answer with a finding: each kind by its own writer.
#[tactic(auto, unfolding(step::specs::Promise::finding_size, step::specs::Promise::finding_answer, step::specs::Promise::group_answer, step::specs::Promise::group_told, commands::specs::Answer::answer_bytes, commands::specs::Answer::answer_fields, commands::specs::Answer::plain_fields, commands::specs::Field::fields_bytes, commands::specs::Field::field_bytes, commands::specs::Bytes::two_bytes), using(crate::proofs::WriteSteps::shared_bytes, crate::proofs::WriteSteps::length_bytes))]
fn write_finding<T: Readable>(t: &T, out: &mut [u8], finding: Finding)
    requires { finding_size finding ≤ length out.old }
    ensures { out.new ≡ sets out.old 0 (answer_bytes (plain (finding_answer (T.shape t.now) (T.words t.now) finding))) }
{
    match finding {
        Finding::Group(VertexGroups::Components, g) => put_numbers(
            out,
            0,
            0x83,
            &[g.name.0, g.size],
        ),
        Finding::Group(VertexGroups::BridgeBlocks, g) => put_numbers(
            out,
            0,
            0x84,
            &[g.name.0, g.size],
        ),
        Finding::Mesh(shared) => write_option(out, 0x85, shared.map(|name| name.0)),
        Finding::List(Listed::Spans, count) => write_list(out, 0x86, count, |i| bridge_at(t, i).0),
        Finding::List(Listed::Cabinets, count) => write_list(out, 0x87, count, |i| cut_at(t, i).0),
        Finding::Sole(sole) => write_flag(out, 0x88, sole),
        Finding::Marked => put_numbers(out, 0, 0x89, &[]),
        Finding::Held(held) => write_flag(out, 0x8A, held),
        Finding::Routes(lengths) => write_routes(t, out, lengths),
        Finding::Recorded => put_numbers(out, 0, 0x8D, &[]),
        Finding::Measured(length) => write_option(out, 0x8E, length),
        Finding::Share(share) => put_numbers(out, 0, 0x8F, &[share]),
    }
}

// The answer, at the front of what is left of the answer buffer: each kind by its own writer.
#[tactic(auto, unfolding(step::specs::Promise::reply_size, step::specs::Promise::reply_answer, commands::specs::Answer::answer_bytes, commands::specs::Answer::answer_fields, commands::specs::Field::fields_bytes, commands::specs::Field::field_bytes, commands::specs::Bytes::two_bytes), using(crate::proofs::WriteSteps::reply_written))]
pub fn write_reply<T: Readable>(t: &T, out: &mut [u8], reply: Reply)
    requires { (reply_size reply ≤ length out.old) × ReplyFits reply }
    ensures { out.new ≡ over (answer_bytes (reply_answer (T.shape t.now) (T.words t.now) reply)) out.old }
{
    match reply {
        Reply::Cabinet(a) => put_numbers(out, 0, 0x81, &[a.0]),
        Reply::Span(span, growth) => write_span(t, out, span, growth),
        Reply::Found(finding) => write_finding(t, out, finding),
    }
}
