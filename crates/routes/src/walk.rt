// Ways: written down from the steps that a search has left, and taken.
ghost use Rattle.std.specs.Prelude.{◌≡◌, ◌&&◌, ◌-◌, ◌<◌, eqb};
ghost use Rattle.forest.specs.Promise.{IsSame, network_in};
ghost use Rattle.routes.specs.Inside.Frame.{column_of};
ghost use Rattle.routes.specs.Inside.Walks.{WayWritten, is_other_mate, UsesSet, MatesSet, StepDone, WayDone, TakesBack};

use crate::lists::{entry_behind, far_end, first_entry};
use crate::uses::Use;
use crate::{NEXT, Route, edge_at};
use forest::{Network, Table, edge_scratch, vertex_scratch};
use numbers::{Edge, Vertex};

// Writes down the edges of the way from a to b as a route; gives their number.
#[tactic(auto, using(forest::specs::Promise::vertices_fit, crate::proofs::Frames::column_known))]
pub(crate) fn write_way(n: &mut Network, route: Route, a: Vertex, b: Vertex) -> u32
    ensures written { WayWritten n.old.table.shape (column_of route) a.0 b.0 n.old.table.words.now n.new.table.words.now result }
    ensures same { IsSame n.old.table n.new.table }
{
    let mut x = a;
    for i in 0..n.table.shape.vertices {
        if x == b {
            return i;
        }
        let Some(s) = Edge::in_word(vertex_scratch(&n.table, NEXT, x)) else {
            return i;
        };
        n.set_vertex_scratch(route.column(), Vertex(i), s.0);
        x = far_end(n, s, x);
    }
    n.table.shape.vertices
}

// Whether a way that is written down goes along an edge that is used.
pub(crate) fn takes_back(t: &Table, route: Route, count: u32) -> bool
    ensures { TakesBack t.now.shape (column_of route) count t.now.words.now result }
{
    (0..count).any(|i| Use::in_word(edge_scratch(t, edge_at(t, route, i))).is_own())
}

// Stores the two bits of an edge.
#[tactic(auto, using(forest::specs::Promise::edges_fit))]
fn set_use(n: &mut Network, s: Edge, used: Use)
    requires { s.0 < n.old.table.shape.edges }
    ensures set { UsesSet n.old.table.shape (λ e. eqb s.0 e) used n.old.table.words.now n.new.table.words.now }
    ensures same { IsSame n.old.table n.new.table }
{
    let word = edge_scratch(&n.table, s);
    n.set_edge_scratch(s, word / 4 * 4 + u32::from(used));
}

// Stores the two bits of edge r where it is another mate of edge s.
#[tactic(auto, using(crate::proofs::WalksUses::mate_passed, crate::proofs::WalksUses::mate_set, crate::proofs::WalksUses::other_mate, crate::proofs::WalksUses::not_other_mate))]
fn set_mate_use(n: &mut Network, s: Edge, r: Edge, used: Use)
    requires { (s.0 < n.old.table.shape.edges) × (r.0 < n.old.table.shape.edges) }
    ensures set { UsesSet n.old.table.shape (λ e. eqb r.0 e && is_other_mate (network_in n.old.table.shape n.old.table.words.now) s.0 e) used n.old.table.words.now n.new.table.words.now }
    ensures same { IsSame n.old.table n.new.table }
{
    if s == r {
        return;
    }
    if n.are_mates(s, r) {
        set_use(n, r, used);
    }
}

// Stores the two bits of the other mates of edge s, all of which are at vertex x, an end of s.
#[tactic(auto, unfolding(crate::specs::Inside::Lists::entry_behind))]
fn set_mates_use(n: &mut Network, x: Vertex, s: Edge, used: Use)
    requires { s.0 < n.old.table.shape.edges }
    ensures set { MatesSet n.old.table.shape x.0 s.0 used n.old.table.words.now n.new.table.words.now }
    ensures same { IsSame n.old.table n.new.table }
{
    let mut entry = first_entry(&n.table, x);
    // a list in the words is followed, and no index counted
    while let Some(r) = entry {
        set_mate_use(n, s, r, used);
        entry = entry_behind(n, x, r);
    }
}

// Takes a step from vertex x along edge s: an edge that was not used is used from x, and one that was used is so no longer.
fn take_step(n: &mut Network, x: Vertex, s: Edge)
    requires { s.0 < n.old.table.shape.edges }
    ensures taken { StepDone n.old.table.shape x.0 s.0 n.old.table.words.now n.new.table.words.now }
    ensures same { IsSame n.old.table n.new.table }
{
    let used = Use::in_word(edge_scratch(&n.table, s));
    let ends = n.ends_of(s);
    set_use(n, s, used.after_step(ends.left == x));
    set_mates_use(n, x, s, used.of_mates_after_step());
}

// Takes the way from a whose edges are written down.
pub(crate) fn take_way(n: &mut Network, route: Route, a: Vertex, count: u32)
    ensures taken { WayDone n.old.table.shape (column_of route) a.0 count n.old.table.words.now n.new.table.words.now }
    ensures same { IsSame n.old.table n.new.table }
{
    let mut x = a;
    for i in 0..count {
        let s = edge_at(&n.table, route, i);
        if s.0 < n.table.shape.edges {
            take_step(n, x, s);
        }
        x = far_end(n, s, x);
    }
}
