// The edges at each vertex, as lists in scratch words: a vertex has its last edge, and an edge has for each of its ends the edge before it
// there. An entry is 1 + an edge, or 0 at the list's end.
ghost use Rattle.std.specs.Prelude.{cond, ◌≡◌, ◌<◌, min, eqb};
ghost use Rattle.forest.specs.Promise.{IsSame, network_in, vertex_scratch};
ghost use Rattle.routes.specs.Inside.Frame.{head_column, ColumnCleared};
ghost use Rattle.routes.specs.Inside.Lists.{EdgeEntered, ListsBuilt, entry_number, far_end, entry_behind};

use crate::HEAD;
use forest::{Ends, Network, Table, edge_scratch, vertex_scratch};
use numbers::{Edge, Vertex};

// Clears a column of the vertices.
#[tactic(auto, using(forest::specs::Promise::vertices_fit, crate::proofs::ListsSteps::cleared_next))]
pub(crate) fn clear_column(n: &mut Network, column: u8)
    requires { column < 4 }
    ensures cleared { ColumnCleared n.old.table.shape column n.old.table.words.now n.new.table.words.now }
    ensures same { IsSame n.old.table n.new.table }
{
    for i in 0..n.table.shape.vertices {
        n.set_vertex_scratch(column, Vertex(i), 0);
    }
}

// Puts an edge at the head of the lists of its two ends. Its own word takes what stood there, in 14 bits each, and two bits that are 0.
#[tactic(auto, using(forest::specs::Promise::edges_fit, forest::specs::Promise::few_edges, crate::proofs::ListsSteps::left_fits, crate::proofs::ListsSteps::right_fits))]
fn enter_edge(n: &mut Network, s: Edge)
    requires { s.0 < n.old.table.shape.edges }
    ensures entered { EdgeEntered n.old.table.shape s.0 n.old.table.words.now n.new.table.words.now }
    ensures same { IsSame n.old.table n.new.table }
{
    let ends = n.ends_of(s);
    let left = vertex_scratch(&n.table, HEAD, ends.left) % 16384;
    let right = vertex_scratch(&n.table, HEAD, ends.right) % 16384;
    n.set_edge_scratch(s, left * 65536 + right * 4);
    let entry = s.to_word();
    n.set_vertex_scratch(HEAD, ends.left, entry);
    n.set_vertex_scratch(HEAD, ends.right, entry);
}

// Builds the lists: first every list is empty, and then the edges are entered, from the first to the last.
#[tactic(auto, using(crate::proofs::ListsSteps::built_first, crate::proofs::ListsSteps::all_built))]
pub(crate) fn build_lists(n: &mut Network)
    ensures built { ListsBuilt n.old.table.shape n.old.table.words.now n.new.table.words.now }
    ensures same { IsSame n.old.table n.new.table }
{
    clear_column(n, HEAD);
    for i in 0..n.table.shape.edges {
        enter_edge(n, Edge(i));
    }
}

// The end of an edge that is not x, where x is one of its two ends.
pub(crate) fn other_end(ends: Ends, x: Vertex) -> Vertex
    ensures { result.0 ≡ cond (eqb ends.left.0 x.0) ends.right.0 ends.left.0 }
{
    if ends.left == x {
        ends.right
    } else {
        ends.left
    }
}

// The vertex to which a step from x along edge s leads; x where there is no such edge.
#[tactic(auto, unfolding(crate::specs::Inside::Lists::far_end, graph::specs::Network::other_end), using(forest::specs::Promise::edges_held))]
pub(crate) fn far_end(n: &Network, s: Edge, x: Vertex) -> Vertex
    ensures { result.0 ≡ far_end (network_in n.now.table.shape n.now.table.words.now) s.0 x.0 }
{
    if s.0 < n.table.shape.edges {
        other_end(n.ends_of(s), x)
    } else {
        x
    }
}

// The entry behind edge s in the list of vertex x; never more than s, so that following a list ends.
#[tactic(auto, unfolding(crate::specs::Inside::Lists::entry_behind))]
pub(crate) fn entry_behind(n: &Network, x: Vertex, s: Edge) -> Option<Edge>
    requires { s.0 < n.now.table.shape.edges }
    ensures { entry_number result ≡ entry_behind n.now.table.shape n.now.table.words.now x.0 s.0 }
{
    let ends = n.ends_of(s);
    let entries = edge_scratch(&n.table, s) / 4;
    if ends.left == x {
        Edge::in_word((entries / 16384).min(s.0))
    } else {
        Edge::in_word((entries % 16384).min(s.0))
    }
}

// The first entry of the list of vertex x; never more than there are edges.
pub(crate) fn first_entry(t: &Table, x: Vertex) -> Option<Edge>
    ensures { entry_number result ≡ min (vertex_scratch t.now.shape t.now.words.now head_column x.0) t.now.shape.edges }
{
    Edge::in_word(vertex_scratch(t, HEAD, x).min(t.shape.edges))
}
