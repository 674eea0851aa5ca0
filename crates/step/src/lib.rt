// One command over the working table: the refusal that it meets, or what it does to the table and what is to be answered. Nothing is written
// here, and the room for the answer is not looked at.
#![tactic(auto)]

ghost use Rattle.std.specs.Prelude.{◌≡◌};
ghost use Rattle.reading.specs.Inside.Reads.{meaning};
ghost use Rattle.step.specs.Promise.{finding_size, reply_size, shape_stepped, StepPromise};

pub mod carry;
pub mod exchange;
pub mod judge;

use crate::carry::carry_out;
use crate::judge::judge;
use forest::{Group, Growth, Network, VertexGroups};
use numbers::{Edge, Vertex};
use reading::read::Order;
use refusals::Refusal;
use routes::Lengths;

// Which list the table has written down. It is told by a value, and not by a closure, since a reply is a value that the answer is written by
// later.
#[derive(Clone, Copy)]
pub enum Listed {
    Spans,
    Cabinets,
}

// What a command that adds nothing is answered with: a cabinet's district or ring, by its name and size; a shared mesh; a list, by its length;
// whether a span is sole; that a cabinet is marked; whether a ring holds an exchange; two routes, by their lengths; that a length is recorded; a span's
// length; a share in thousandths. A list and the routes stand in the table until the next command.
#[derive(Clone, Copy)]
pub enum Finding {
    Group(VertexGroups, Group),
    Mesh(Option<Edge>),
    List(Listed, u32),
    Sole(bool),
    Marked,
    Held(bool),
    Routes(Lengths),
    Recorded,
    Measured(Option<u32>),
    Share(u32),
}

// What is to be answered: a new cabinet; a new span with the names that it changed, which stand in the table until the next command; or what a
// command that adds nothing has found.
#[derive(Clone, Copy)]
pub enum Reply {
    Cabinet(Vertex),
    Span(Edge, Growth),
    Found(Finding),
}

impl Finding {
    // How many bytes the answer with it has.
    #[tactic(auto, unfolding(crate::specs::Promise::finding_size))]
    fn size(self) -> usize
        ensures { result ≡ finding_size self }
    {
        match self {
            Finding::Group(_, _) => 5,
            Finding::Mesh(_) => 4,
            Finding::List(_, count) => 3 + 2 * (count as usize),
            Finding::Sole(_) => 2,
            Finding::Marked => 1,
            Finding::Held(_) => 2,
            Finding::Routes(lengths) => 5
                + 2 * ((lengths.first as usize) + (lengths.second as usize)),
            Finding::Recorded => 1,
            Finding::Measured(_) => 4,
            Finding::Share(_) => 3,
        }
    }
}

impl Reply {
    // How many bytes the answer has.
    #[tactic(auto, unfolding(crate::specs::Promise::reply_size))]
    pub fn size(self) -> usize
        ensures { result ≡ reply_size self }
    {
        match self {
            Reply::Cabinet(_) => 3,
            Reply::Span(_, growth) => {
                7 + 5
                    * ((growth.components as usize)
                        + (growth.bridge_blocks as usize)
                        + (growth.blocks as usize))
            }
            Reply::Found(finding) => finding.size(),
        }
    }
}

// One command.
pub fn step(n: &mut Network, order: Order) -> Result<Reply, Refusal>
    ensures stepped { StepPromise n.old.table.shape (meaning order) n.old.table.words.now n.new.table.words.now result }
    ensures shape { n.new.table.shape ≡ shape_stepped n.old.table.shape result }
    ensures reference { n.new.table.words.ghost_name ≡ n.old.table.words.ghost_name }
{
    judge(n, order)?;
    Ok(carry_out(n, order))
}
