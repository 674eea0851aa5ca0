// The search for ways to a goal, breadth first from the goal backwards: each vertex that is reached keeps its step towards it.
ghost use Rattle.std.specs.Prelude.{◌≡◌, ◌<◌};
ghost use Rattle.forest.specs.Promise.{IsSame};
ghost use Rattle.routes.specs.Inside.Searches.{may_step, Reached, Looked, LookedAll, Turned, Begun, Searched};
ghost use Rattle.routes.specs.declared.search.Allowance.TheVariants as Variants;

use crate::lists::{clear_column, entry_behind, first_entry, other_end};
use crate::uses::Use;
use crate::{NEXT, ORDER};
use forest::{Network, edge_scratch, vertex_scratch};
use numbers::{Edge, Vertex};

// Which steps a search may take: those of one way more, or those along used edges. It is told by a value, and not by a closure, since the
// definitions decide by it too, and the promises of a search then name it alone.
#[derive(Clone, Copy)]
pub enum Allowance {
    OneMore,
    AlongUsed,
}

// Whether one way more may go along an edge of this use, from its left end or from its right.
#[tactic(auto, unfolding(crate::specs::Inside::Searches::may_step))]
fn may_add(used: Use, left: bool) -> bool
    ensures { result ≡ may_step Variants.OneMore used left }
{
    match used {
        Use::Free => true,
        Use::MateUsed => false,
        Use::FromLeft => !left,
        Use::FromRight => left,
    }
}

// Whether a way along used edges may, as they are used.
#[tactic(auto, unfolding(crate::specs::Inside::Searches::may_step))]
fn may_follow(used: Use, left: bool) -> bool
    ensures { result ≡ may_step Variants.AlongUsed used left }
{
    match used {
        Use::Free | Use::MateUsed => false,
        Use::FromLeft => left,
        Use::FromRight => !left,
    }
}

// Whether a step may be taken along an edge of this use.
fn may_step(allowance: Allowance, used: Use, left: bool) -> bool
    ensures { result ≡ may_step allowance used left }
{
    match allowance {
        Allowance::OneMore => may_add(used, left),
        Allowance::AlongUsed => may_follow(used, left),
    }
}

// Writes down that vertex x is reached, by a step along edge s; gives how many are reached then.
#[tactic(auto, using(forest::specs::Promise::vertices_fit, forest::specs::Promise::few_edges))]
fn reach(n: &mut Network, x: Vertex, s: Edge, found: u32) -> u32
    requires { (x.0 < n.old.table.shape.vertices) × (s.0 < n.old.table.shape.edges) }
    ensures reached { Reached n.old.table.shape x.0 s.0 found n.old.table.words.now n.new.table.words.now result }
    ensures same { IsSame n.old.table n.new.table }
{
    if found < n.table.shape.vertices {
        n.set_vertex_scratch(NEXT, x, s.to_word());
        n.set_vertex_scratch(ORDER, Vertex(found), x.0);
        return found + 1;
    }
    found
}

// Sees edge s from vertex y: its other end is reached, if it was not and if the step from there may be taken. (Whether it was is asked first: every
// edge is seen from both its ends.)
#[tactic(auto, using(crate::proofs::SearchesLook::other_known))]
fn look(n: &mut Network, allowance: Allowance, y: Vertex, s: Edge, found: u32) -> u32
    requires { s.0 < n.old.table.shape.edges }
    ensures looked { Looked n.old.table.shape allowance y.0 s.0 found n.old.table.words.now n.new.table.words.now result }
    ensures same { IsSame n.old.table n.new.table }
{
    let ends = n.ends_of(s);
    let x = other_end(ends, y);
    if vertex_scratch(&n.table, NEXT, x) != 0 {
        return found;
    }
    let used = Use::in_word(edge_scratch(&n.table, s));
    if !may_step(allowance, used, ends.left == x) {
        return found;
    }
    reach(n, x, s, found)
}

// Sees all edges at vertex y, from the last to the first.
#[tactic(auto, unfolding(crate::specs::Inside::Lists::entry_behind))]
fn look_all(n: &mut Network, allowance: Allowance, y: Vertex, found: u32) -> u32
    ensures looked { LookedAll n.old.table.shape allowance y.0 found n.old.table.words.now n.new.table.words.now result }
    ensures same { IsSame n.old.table n.new.table }
{
    let mut reached = found;
    let mut entry = first_entry(&n.table, y);
    // a list in the words is followed, and no index counted
    while let Some(s) = entry {
        entry = entry_behind(n, y, s);
        reached = look(n, allowance, y, s, reached);
    }
    reached
}

// Turn i: all edges are seen from the vertex that was reached i-th, if so many were.
fn turn(n: &mut Network, allowance: Allowance, i: u32, found: u32) -> u32
    ensures turned { Turned n.old.table.shape allowance i found n.old.table.words.now n.new.table.words.now result }
    ensures same { IsSame n.old.table n.new.table }
{
    if i < found {
        let y = vertex_scratch(&n.table, ORDER, Vertex(i));
        return look_all(n, allowance, Vertex(y), found);
    }
    found
}

// No vertex is reached but the goal. There is no step from the goal, and its word, which is 1, tells only that it is reached; so whether a
// vertex is reached is asked of its word, and not of the edge that the word tells.
#[tactic(auto, using(forest::specs::Promise::vertices_fit))]
fn begin_search(n: &mut Network, b: Vertex)
    requires { b.0 < n.old.table.shape.vertices }
    ensures begun { Begun n.old.table.shape b.0 n.old.table.words.now n.new.table.words.now }
    ensures same { IsSame n.old.table n.new.table }
{
    clear_column(n, NEXT);
    n.set_vertex_scratch(NEXT, b, 1);
    n.set_vertex_scratch(ORDER, Vertex(0), b.0);
}

// Searches for a way from a to b: as many turns as there are vertices, or fewer where a is reached by then.
pub(crate) fn search(n: &mut Network, allowance: Allowance, a: Vertex, b: Vertex)
    requires { b.0 < n.old.table.shape.vertices }
    ensures searched { Searched n.old.table.shape allowance a.0 b.0 n.old.table.words.now n.new.table.words.now }
    ensures same { IsSame n.old.table n.new.table }
{
    begin_search(n, b);
    let mut found: u32 = 1;
    for i in 0..n.table.shape.vertices {
        if vertex_scratch(&n.table, NEXT, a) != 0 {
            return;
        }
        found = turn(n, allowance, i, found);
    }
}
