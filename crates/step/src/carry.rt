// Carrying out a command that meets no refusal: what becomes of the table, and what is to be answered.
ghost use Rattle.std.specs.Prelude.{true, false, ◌≡◌, ◌<◌};
ghost use Rattle.graph.specs.Groups.{component, bridge_block};
ghost use Rattle.commands.specs.Command.{add_cabinet, shared_mesh, sole_spans, cut_cabinets, is_sole, mark_exchange, holds_exchange, routes_between, record_length, span_length, exchange_share};
ghost use Rattle.forest.specs.Promise.{state_of, network_in};
ghost use Rattle.reading.specs.Inside.Reads.{span_command, meaning};
ghost use Rattle.step.specs.Inside.Judged.{Passed};
ghost use Rattle.step.specs.Promise.{CarriedIn};
ghost use Rattle.step.specs.Inside.Asked.{asks_group};

use crate::exchange::{ring_holds_exchange, share_with_exchange};
use crate::{Finding, Listed, Reply};
use forest::{Network, VertexGroups};
use numbers::{Duct, Edge, Measure, Vertex};
use reading::read::Order;
use routes::find;

// 01: add a cabinet.
fn add_cabinet(n: &mut Network) -> Reply
    requires { n.old.table.shape.vertices < n.old.table.shape.limits.vertices }
    ensures { CarriedIn add_cabinet n.old n.new result }
{
    let a = Vertex(n.table.shape.vertices);
    n.add_vertex();
    Reply::Cabinet(a)
}

// 02 and 0B: add a span.
fn add_span(n: &mut Network, a: Vertex, b: Vertex, duct: Option<Duct>) -> Reply
    requires { (n.old.table.shape.edges < n.old.table.shape.limits.edges) × (a.0 < n.old.table.shape.vertices) × (b.0 < n.old.table.shape.vertices) × (a.0 ≡ b.0 → ⊥) }
    ensures { CarriedIn (span_command a.0 b.0 duct) n.old n.new result }
{
    let s = Edge(n.table.shape.edges);
    let growth = n.add_edge(a, b, duct.unwrap_or(Duct(0)));
    Reply::Span(s, growth)
}

// 03 and 04: a cabinet's district, and its ring, by name and size.
fn look_up(n: &Network, groups: VertexGroups, a: Vertex) -> Reply
    requires { a.0 < n.now.table.shape.vertices }
    ensures { CarriedIn (asks_group groups a.0) n.now n.now result }
{
    Reply::Found(Finding::Group(groups, n.group_of(groups, a)))
}

// 05: the mesh that two cabinets share.
fn shared_mesh(n: &Network, a: Vertex, b: Vertex) -> Reply
    requires { (a.0 < n.now.table.shape.vertices) × (b.0 < n.now.table.shape.vertices) × (a.0 ≡ b.0 → ⊥) }
    ensures { CarriedIn (shared_mesh a.0 b.0) n.now n.now result }
{
    Reply::Found(Finding::Mesh(n.shared_block(a, b)))
}

// 06: the sole spans between two cabinets. This and the next are functions of their own, as each command is, since each promises what its
// command's definition says.
fn sole_spans(n: &mut Network, a: Vertex, b: Vertex) -> Reply
    requires { (a.0 < n.old.table.shape.vertices) × (b.0 < n.old.table.shape.vertices) × (component (network_in n.old.table.shape n.old.table.words.now) a.0 b.0 ≡ true) }
    ensures { CarriedIn (sole_spans a.0 b.0) n.old n.new result }
{
    let count = n.bridges_between(a, b);
    Reply::Found(Finding::List(Listed::Spans, count))
}

// 07: the cut cabinets between two cabinets.
fn cut_cabinets(n: &mut Network, a: Vertex, b: Vertex) -> Reply
    requires { (a.0 < n.old.table.shape.vertices) × (b.0 < n.old.table.shape.vertices) × (component (network_in n.old.table.shape n.old.table.words.now) a.0 b.0 ≡ true) }
    ensures { CarriedIn (cut_cabinets a.0 b.0) n.old n.new result }
{
    let count = n.cuts_between(a, b);
    Reply::Found(Finding::List(Listed::Cabinets, count))
}

// 08: whether a span is sole between its ends.
fn is_sole(n: &Network, s: Edge) -> Reply
    requires { s.0 < n.now.table.shape.edges }
    ensures { CarriedIn (is_sole s.0) n.now n.now result }
{
    Reply::Found(Finding::Sole(n.is_bridge(s)))
}

// 09: mark a cabinet as an exchange.
fn mark_exchange(n: &mut Network, a: Vertex) -> Reply
    requires { (a.0 < n.old.table.shape.vertices) × ((state_of n.old.table.shape n.old.table.words.now).marked a.0 ≡ false) }
    ensures { CarriedIn (mark_exchange a.0) n.old n.new result }
{
    n.mark(a);
    Reply::Found(Finding::Marked)
}

// 0A: whether a cabinet's ring holds an exchange.
fn holds_exchange(n: &Network, a: Vertex) -> Reply
    requires { a.0 < n.now.table.shape.vertices }
    ensures { CarriedIn (holds_exchange a.0) n.now n.now result }
{
    Reply::Found(Finding::Held(ring_holds_exchange(n, a)))
}

// 0C: the routes between two cabinets of one ring.
fn routes_between(n: &mut Network, a: Vertex, b: Vertex) -> Reply
    requires { (b.0 < n.old.table.shape.vertices) × (bridge_block (network_in n.old.table.shape n.old.table.words.now) a.0 b.0 ≡ true) }
    ensures { CarriedIn (routes_between a.0 b.0) n.old n.new result }
{
    Reply::Found(Finding::Routes(find(n, a, b)))
}

// 0D: record a length of a span.
fn record_length(n: &mut Network, s: Edge, measure: Measure) -> Reply
    requires { s.0 < n.old.table.shape.edges }
    ensures { CarriedIn (record_length s.0 measure.day measure.metres) n.old n.new result }
{
    n.enter_survey(s, measure);
    Reply::Found(Finding::Recorded)
}

// 0E: the length of a span.
fn span_length(n: &Network, s: Edge) -> Reply
    requires { s.0 < n.now.table.shape.edges }
    ensures { CarriedIn (span_length s.0) n.now n.now result }
{
    Reply::Found(Finding::Measured(n.length_of(s)))
}

// 0F: the share of the cabinets whose ring holds an exchange.
fn exchange_share(n: &Network) -> Reply
    ensures { CarriedIn exchange_share n.now n.now result }
{
    Reply::Found(Finding::Share(share_with_exchange(n)))
}

// A command that meets no refusal.
#[tactic(auto, unfolding(crate::specs::Inside::Judged::Passed, crate::specs::Inside::Asked::asks_group, reading::specs::Inside::Reads::meaning))]
pub(crate) fn carry_out(n: &mut Network, order: Order) -> Reply
    requires { Passed n.old.table.shape n.old.table.words.now order }
    ensures { CarriedIn (meaning order) n.old n.new result }
{
    match order {
        Order::AddCabinet => add_cabinet(n),
        Order::AddSpan(a, b, duct) => add_span(n, a, b, duct),
        Order::DistrictName(a) => look_up(n, VertexGroups::Components, a),
        Order::RingName(a) => look_up(n, VertexGroups::BridgeBlocks, a),
        Order::SharedMesh(a, b) => shared_mesh(n, a, b),
        Order::SoleSpans(a, b) => sole_spans(n, a, b),
        Order::CutCabinets(a, b) => cut_cabinets(n, a, b),
        Order::IsSole(s) => is_sole(n, s),
        Order::MarkExchange(a) => mark_exchange(n, a),
        Order::HoldsExchange(a) => holds_exchange(n, a),
        Order::RoutesBetween(a, b) => routes_between(n, a, b),
        Order::RecordLength(s, measure) => record_length(n, s, measure),
        Order::SpanLength(s) => span_length(n, s),
        Order::ExchangeShare => exchange_share(n),
    }
}
