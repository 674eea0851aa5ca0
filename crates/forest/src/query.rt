// The questions: what the table says of its groups, and of the path between two vertices.
ghost use Rattle.std.specs.Prelude.{MatchOption, ◌≡◌, ◌+◌, ◌/◌, ◌%◌, ◌||◌, ◌<◌, ◌≤◌};
ghost use Rattle.table.specs.Inside.Column;
ghost use Rattle.table.specs.Inside.Layout.{cell, edge_area};
ghost use Rattle.table.specs.Same.{IsSame};
ghost use Rattle.forest.specs.Inside.Climb.{up_of, climb_table};
ghost use Rattle.forest.specs.Inside.Queries.{bridge_blocks_differ, bridge_in, are_pair, lost_together, hangs_from, hang_together, block_above, shared_in};
ghost use Rattle.forest.specs.Inside.Queries.{find_table, find_count, bridges_found, cuts_count};

use crate::Ends;
use crate::climb::{block_of, climb, top, up};
use crate::survey::duct_of;
use numbers::{Edge, Vertex};
use table::words::{ENDS, NAME, PATH_EDGE, PATH_VERTEX, RIGHT_EDGE, Readable, Table};

// The two ends of an edge, which are kept in one word.
pub(crate) fn ends_of<T: Readable>(t: &T, s: Edge) -> Ends
    ensures left { result.left.0 ≡ cell (T.words t.now) (edge_area (T.shape t.now).limits) Column.ends s.0 / 65536 }
    ensures right { result.right.0 ≡ cell (T.words t.now) (edge_area (T.shape t.now).limits) Column.ends s.0 % 65536 }
{
    let ends = t.word(t.edge_area(), ENDS, s.0);
    Ends {
        left: Vertex(ends / 65536),
        right: Vertex(ends % 65536),
    }
}

// The bridge-block names of two vertices differ.
#[tactic(auto, unfolding(crate::specs::Inside::Queries::bridge_blocks_differ))]
fn bridge_blocks_differ<T: Readable>(t: &T, x: Vertex, y: Vertex) -> bool
    ensures { result ≡ bridge_blocks_differ (T.words t.now) (T.shape t.now).limits x.0 y.0 }
{
    let left = t.word(t.bridge_block_area(), NAME, x.0);
    let right = t.word(t.bridge_block_area(), NAME, y.0);
    left != right
}

// The bridge-block names of an edge's two ends differ.
#[tactic(auto, unfolding(crate::specs::Inside::Queries::bridge_in))]
pub(crate) fn ends_differ<T: Readable>(t: &T, s: Edge) -> bool
    ensures { result ≡ bridge_in (T.words t.now) (T.shape t.now).limits s.0 }
{
    let ends = ends_of(t, s);
    bridge_blocks_differ(t, ends.left, ends.right)
}

// Two edges have the same ends, in either direction.
#[tactic(auto, unfolding(crate::specs::Inside::Queries::are_pair))]
fn ends_agree(ends: Ends, other: Ends) -> bool
    ensures { result ≡ (are_pair ends.left.0 ends.right.0 other.left.0 other.right.0 || are_pair ends.left.0 ends.right.0 other.right.0 other.left.0) }
{
    let turned = Ends {
        left: other.right,
        right: other.left,
    };
    ends == other || ends == turned
}

// Two edges lie in one duct, between the same two vertices.
#[tactic(auto, unfolding(crate::specs::Inside::Queries::lost_together, crate::specs::Inside::Queries::ends_agree))]
pub(crate) fn lost_together<T: Readable>(t: &T, s: Edge, other: Edge) -> bool
    ensures { result ≡ lost_together (T.words t.now) (T.shape t.now).limits s.0 other.0 }
{
    duct_of(t, s) == duct_of(t, other) && ends_agree(ends_of(t, s), ends_of(t, other))
}

// Vertex x hangs below a block, and y is the vertex above that block. It is a `match`, since with `is_some_and` the check does not see what
// holds of the edge.
#[tactic(auto, unfolding(crate::specs::Inside::Queries::hangs_from))]
fn hangs_from<T: Readable>(t: &T, x: Vertex, y: Vertex) -> bool
    ensures { result ≡ hangs_from (T.words t.now) (T.shape t.now).limits x.0 y.0 }
{
    match up(t, x) {
        Some(e) => top(t, block_of(t, e)) == y,
        None => false,
    }
}

// Vertices x and y hang below one block.
#[tactic(auto, unfolding(crate::specs::Inside::Queries::hang_together))]
fn hang_together<T: Readable>(t: &T, x: Vertex, y: Vertex) -> bool
    ensures { result ≡ hang_together (T.words t.now) (T.shape t.now).limits x.0 y.0 }
{
    match (up(t, x), up(t, y)) {
        (Some(e), Some(d)) => block_of(t, e) == block_of(t, d),
        _ => false,
    }
}

// The name of the block above a vertex; none at a root.
#[tactic(auto, unfolding(crate::specs::Inside::Queries::block_above))]
fn block_above<T: Readable>(t: &T, x: Vertex) -> Option<Edge>
    ensures { MatchOption result (up_of (T.words t.now) (T.shape t.now).limits x.0 ≡ 0) (λ e. e.0 ≡ block_above (T.words t.now) (T.shape t.now).limits x.0) }
{
    let e = up(t, x)?;
    Some(block_of(t, e))
}

// The block that two different vertices share.
#[tactic(auto, unfolding(crate::specs::Inside::Queries::shared_in, crate::specs::Inside::Queries::hang_together, crate::specs::Inside::Queries::hangs_from))]
pub(crate) fn find_shared<T: Readable>(t: &T, a: Vertex, b: Vertex) -> Option<Edge>
    ensures { result ≡ shared_in (T.words t.now) (T.shape t.now).limits a.0 b.0 }
{
    if hang_together(t, a, b) || hangs_from(t, a, b) {
        return block_above(t, a);
    }
    if hangs_from(t, b, a) {
        return block_above(t, b);
    }
    None
}

// Writes down the name of the block of step i of the path, where its edges are bridges.
#[tactic(auto, unfolding(crate::specs::Inside::Queries::find_table, crate::specs::Inside::Queries::find_count))]
fn find_one(t: &mut Table, i: u32, count: u32) -> u32
    requires { (count ≤ i) × (i < 4294967295) }
    ensures words { t.new.words.now ≡ find_table t.old.words.now t.old.shape.limits i count }
    ensures count { result ≡ find_count t.old.words.now t.old.shape.limits i count }
    ensures same { IsSame t.old t.new }
{
    let x = Vertex(t.word(t.vertex_area(), PATH_VERTEX, i));
    let y = Vertex(t.word(t.vertex_area(), PATH_VERTEX, i + 1));
    if bridge_blocks_differ(t, x, y) {
        let e = t.word(t.vertex_area(), PATH_EDGE, i);
        let name = block_of(t, Edge(e));
        t.set_word(t.vertex_area(), RIGHT_EDGE, count, name.0);
        return count + 1;
    }
    count
}

// Writes down the bridges on the path from a to b, in order; gives their number.
#[tactic(auto, unfolding(crate::specs::Inside::Queries::bridges_found), using(crate::proofs::QuerySteps::find_step, crate::proofs::QuerySteps::find_end, crate::proofs::QuerySteps::find_count_bound))]
pub(crate) fn find_bridges(t: &mut Table, a: Vertex, b: Vertex) -> u32
    ensures words { t.new.words.now ≡ (bridges_found t.old.words.now t.old.shape.limits a.0 b.0).table }
    ensures count { result ≡ (bridges_found t.old.words.now t.old.shape.limits a.0 b.0).count }
    ensures same { IsSame t.old t.new }
{
    let route = climb(t, a, b);
    let mut count: u32 = 0;
    for i in 0..route.steps {
        count = find_one(t, i, count);
    }
    count
}

// Leaves the path from a to b in the table; gives the number of its vertices between its ends.
#[tactic(auto, unfolding(crate::specs::Inside::Queries::cuts_count))]
pub(crate) fn find_cuts(t: &mut Table, a: Vertex, b: Vertex) -> u32
    ensures words { t.new.words.now ≡ climb_table t.old.words.now t.old.shape.limits a.0 b.0 }
    ensures count { result ≡ cuts_count t.old.words.now t.old.shape.limits a.0 b.0 }
    ensures same { IsSame t.old t.new }
{
    let route = climb(t, a, b);
    route.steps.saturating_sub(1)
}
