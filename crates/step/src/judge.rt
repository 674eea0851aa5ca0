// The refusal that a command meets, room apart. Each function tests lines of the table of causes in their order.
ghost use Rattle.std.specs.Prelude.{◌≡◌};
ghost use Rattle.step.specs.Inside.Judged.{demand, cabinet_known, span_known, cabinets_known, differ, no_exchange, some_duct, room_for_cabinet, new_span, share_district, share_ring, judgement};

use forest::{Network, VertexGroups};
use numbers::{Duct, Edge, Vertex};
use reading::read::Order;
use refusals::Refusal;

// What is demanded is met, or refused so.
fn demand(is_met: bool, refusal: Refusal) -> Result<(), Refusal>
    ensures { result ≡ demand is_met refusal }
{
    if is_met { Ok(()) } else { Err(refusal) }
}

// 6: the cabinet is not known.
fn cabinet_known(n: &Network, a: Vertex) -> Result<(), Refusal>
    ensures { result ≡ cabinet_known n.now.table.shape a.0 }
{
    demand(a.0 < n.table.shape.vertices, Refusal::UnknownCabinet)
}

// 7: the span is not known.
fn span_known(n: &Network, s: Edge) -> Result<(), Refusal>
    ensures { result ≡ span_known n.now.table.shape s.0 }
{
    demand(s.0 < n.table.shape.edges, Refusal::UnknownSpan)
}

// 6: one of the two cabinets is not known.
fn cabinets_known(n: &Network, a: Vertex, b: Vertex) -> Result<(), Refusal>
    ensures { result ≡ cabinets_known n.now.table.shape a.0 b.0 }
{
    cabinet_known(n, a)?;
    cabinet_known(n, b)
}

// 6, then 8: the two cabinets are one.
fn differ(n: &Network, a: Vertex, b: Vertex) -> Result<(), Refusal>
    ensures { result ≡ differ n.now.table.shape a.0 b.0 }
{
    cabinets_known(n, a, b)?;
    demand(a != b, Refusal::EqualCabinets)
}

// 6, then 12: the cabinet is an exchange already.
fn no_exchange(n: &Network, a: Vertex) -> Result<(), Refusal>
    ensures { result ≡ no_exchange n.now.table.shape n.now.table.words.now a.0 }
{
    cabinet_known(n, a)?;
    demand(!n.is_marked(a), Refusal::AlreadyExchange)
}

// 13: the duct is 0.
fn some_duct(duct: Option<Duct>) -> Result<(), Refusal>
    ensures { result ≡ some_duct duct }
{
    demand(duct != Some(Duct(0)), Refusal::NoDuct)
}

// 9: there are as many cabinets as there may be.
fn room_for_cabinet(n: &Network) -> Result<(), Refusal>
    ensures { result ≡ room_for_cabinet n.now.table.shape }
{
    demand(
        n.table.shape.vertices < u32::from(n.table.shape.limits.vertices),
        Refusal::Full,
    )
}

// 6, then 8, then 13, then 9: there are as many spans as there may be.
fn new_span(n: &Network, a: Vertex, b: Vertex, duct: Option<Duct>) -> Result<(), Refusal>
    ensures { result ≡ new_span n.now.table.shape a.0 b.0 duct }
{
    differ(n, a, b)?;
    some_duct(duct)?;
    demand(
        n.table.shape.edges < u32::from(n.table.shape.limits.edges),
        Refusal::Full,
    )
}

// 6, then 10: the two cabinets are in two districts. That they are in one, and in one ring, is asked by a function each: what is demanded
// before and what it is refused by differ too.
fn share_district(n: &Network, a: Vertex, b: Vertex) -> Result<(), Refusal>
    ensures { result ≡ share_district n.now.table.shape n.now.table.words.now a.0 b.0 }
{
    cabinets_known(n, a, b)?;
    demand(
        n.same_group(VertexGroups::Components, a, b),
        Refusal::TwoDistricts,
    )
}

// 6, then 8, then 14: the two cabinets share no ring.
fn share_ring(n: &Network, a: Vertex, b: Vertex) -> Result<(), Refusal>
    ensures { result ≡ share_ring n.now.table.shape n.now.table.words.now a.0 b.0 }
{
    differ(n, a, b)?;
    demand(
        n.same_group(VertexGroups::BridgeBlocks, a, b),
        Refusal::NoSharedRing,
    )
}

// The refusal of a command.
#[tactic(auto, unfolding(crate::specs::Inside::Judged::judgement))]
pub(crate) fn judge(n: &Network, order: Order) -> Result<(), Refusal>
    ensures { result ≡ judgement n.now.table.shape n.now.table.words.now order }
{
    match order {
        Order::AddCabinet => room_for_cabinet(n),
        Order::AddSpan(a, b, duct) => new_span(n, a, b, duct),
        Order::DistrictName(a) | Order::RingName(a) | Order::HoldsExchange(a) => {
            cabinet_known(n, a)
        }
        Order::SharedMesh(a, b) => differ(n, a, b),
        Order::SoleSpans(a, b) | Order::CutCabinets(a, b) => share_district(n, a, b),
        Order::IsSole(s) | Order::RecordLength(s, _) | Order::SpanLength(s) => span_known(n, s),
        Order::MarkExchange(a) => no_exchange(n, a),
        Order::RoutesBetween(a, b) => share_ring(n, a, b),
        Order::ExchangeShare => Ok(()),
    }
}
