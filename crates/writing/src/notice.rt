// Writing the answer to an added span: its number, its mesh name, and a notice for every name that changed.
ghost use Rattle.std.specs.Prelude.{◌≡◌, ◌+◌, ◌*◌, ◌≤◌, ◌<◌, length};
ghost use Rattle.std.proofs.lemmas.List.Edits.{sets};
ghost use Rattle.commands.specs.Field.{fields_bytes};
ghost use Rattle.commands.specs.Answer.{notice_fields, notices_fields, span_added, answer_bytes};
ghost use Rattle.step.specs.Promise.{notice_at, notices_of, notice_count, growth_notices};
ghost use Rattle.writing.specs.Inside.Notices.{kind_of, notice_of, length_notice};

use crate::items::{Item, put_items};
use forest::{Change, Growth, Readable, VertexGroups, edge_change_at, vertex_change_at};
use numbers::{Edge, Vertex};
use storing::put_numbers;

// The kinds of names that notices tell. A kind is told, and no closure that gives its notices, since the promises speak of the notices of a kind.
#[derive(Clone, Copy)]
pub enum Kind {
    District,
    Ring,
    Mesh,
}

// A notice: a cabinet's new district or ring name, or a span's new mesh name.
#[derive(Clone, Copy)]
pub enum Notice {
    District(Change<Vertex>),
    Ring(Change<Vertex>),
    Mesh(Change<Edge>),
}

// A notice's bytes: its kind's, its item and its name.
impl Item for Notice {
    ghost bytes = { λ n. fields_bytes (notice_fields (notice_of n)) };

    ghost WIDTH = { 5 };

    const WIDTH: usize = 5;

    ghost counted = { length_notice };

    #[tactic(auto, unfolding(crate::specs::Inside::Notices::notice_of, commands::specs::Answer::notice_fields, commands::specs::Answer::item_field, commands::specs::Answer::kind_byte, commands::specs::Field::fields_bytes, commands::specs::Field::field_bytes, commands::specs::Bytes::two_bytes))]
    fn put(self, out: &mut [u8], at: usize) {
        match self {
            Notice::District(c) => put_numbers(out, at, 1, &[c.item.0, c.name.0]),
            Notice::Ring(c) => put_numbers(out, at, 2, &[c.item.0, c.name.0]),
            Notice::Mesh(c) => put_numbers(out, at, 3, &[c.item.0, c.name.0]),
        }
    }
}

// Notice i of a kind, as the table has it written down.
#[tactic(auto, unfolding(crate::specs::Inside::Notices::kind_of, crate::specs::Inside::Notices::notice_of, step::specs::Promise::notice_at, commands::specs::Answer::change_notice))]
fn notice_at<T: Readable>(t: &T, kind: Kind, i: u32) -> Notice
    ensures { notice_of result ≡ notice_at (kind_of kind) (T.shape t.now) (T.words t.now) i }
{
    match kind {
        Kind::District => Notice::District(vertex_change_at(t, VertexGroups::Components, i)),
        Kind::Ring => Notice::Ring(vertex_change_at(t, VertexGroups::BridgeBlocks, i)),
        Kind::Mesh => Notice::Mesh(edge_change_at(t, i)),
    }
}

// The notices of a kind, one after another, from a place on. Gives the place behind them.
fn put_notices<T: Readable>(t: &T, out: &mut [u8], at: usize, kind: Kind, count: u32) -> usize
    requires { at + 5 * count ≤ length out.old }
    ensures place { result ≡ at + 5 * count }
    ensures stored { out.new ≡ sets out.old at (fields_bytes (notices_fields (notices_of (kind_of kind) (T.shape t.now) (T.words t.now) count))) }
{
    put_items(out, at, count, |i| notice_at(t, kind, i))
}

// The answer to an added span.
#[tactic(auto, unfolding(crate::specs::Inside::Notices::kind_of), using(crate::proofs::WriteSteps::span_written))]
pub(crate) fn write_span<T: Readable>(t: &T, out: &mut [u8], span: Edge, growth: Growth)
    requires { (notice_count growth < 65536) × (7 + 5 * notice_count growth ≤ length out.old) }
    ensures { out.new ≡ sets out.old 0 (answer_bytes (span_added span.0 growth.block.0 (growth_notices (T.shape t.now) (T.words t.now) growth))) }
{
    let total = growth.components + growth.bridge_blocks + growth.blocks;
    put_numbers(out, 0, 0x82, &[span.0, growth.block.0, total]);
    let at = put_notices(t, out, 7, Kind::District, growth.components);
    let at = put_notices(t, out, at, Kind::Ring, growth.bridge_blocks);
    put_notices(t, out, at, Kind::Mesh, growth.blocks);
}
