// Climbing the block forest: from vertex to block and from block to vertex, turn about, until two vertices' ways up meet.
ghost use Rattle.std.specs.Prelude.{MatchOption, ◌≡◌, ◌+◌, ◌<◌, ◌≤◌, cond, min, not, ◌&&◌, ◌==◌, nat_lt};
ghost use Rattle.table.specs.Same.{IsSame};
ghost use Rattle.forest.specs.Inside.Climb.{up_of, depth_of, block_of, top_of, above_edge, right_deeper, record_table, record_trail};
ghost use Rattle.forest.specs.Inside.Climb.{climb_from, climb_from_block, nested_most, kept_left, join_from, reach, climb_table, climb_route};

use numbers::{Edge, Vertex};
use table::words::{
    DEPTH, NAME, PATH_EDGE, PATH_VERTEX, RIGHT_EDGE, RIGHT_VERTEX, Readable, TOP, Table, UP,
};

// How many steps of a climb nest in one another at most: what bounds the stack. A climb of no more steps is one nest of calls.
const NESTED: u32 = 12;

// Two vertices on their ways up, and how many steps each side has made. Which side a step is on is told by a bool, that it is the right
// one, since it comes from a comparison of depths, and the definitions tell it so.
#[derive(Clone, Copy)]
pub struct Trail {
    pub a: Vertex,
    pub b: Vertex,
    pub left: u32,
    pub right: u32,
}

// A path of blocks: how many steps it has, and the vertex where its two sides met.
#[derive(Clone, Copy)]
pub struct Route {
    pub steps: u32,
    pub top: Vertex,
}

// An edge of the block above the vertex; none at a root.
pub(crate) fn up<T: Readable>(t: &T, x: Vertex) -> Option<Edge>
    ensures { MatchOption result (up_of (T.words t.now) (T.shape t.now).limits x.0 ≡ 0) (λ e. (up_of (T.words t.now) (T.shape t.now).limits x.0 ≡ e.0 + 1) × (e.0 < 4294967295)) }
{
    Edge::in_word(t.word(t.vertex_area(), UP, x.0))
}

// A number that falls on the way up.
pub(crate) fn depth<T: Readable>(t: &T, x: Vertex) -> u32
    ensures { result ≡ depth_of (T.words t.now) (T.shape t.now).limits x.0 }
{
    t.word(t.vertex_area(), DEPTH, x.0)
}

// The name of an edge's block.
pub(crate) fn block_of<T: Readable>(t: &T, e: Edge) -> Edge
    ensures { result.0 ≡ block_of (T.words t.now) (T.shape t.now).limits e.0 }
{
    Edge(t.word(t.edge_area(), NAME, e.0))
}

// The vertex above a block, by its name.
pub(crate) fn top<T: Readable>(t: &T, block: Edge) -> Vertex
    ensures { result.0 ≡ top_of (T.words t.now) (T.shape t.now).limits block.0 }
{
    Vertex(t.word(t.edge_area(), TOP, block.0))
}

// The vertex above an edge's block.
#[tactic(auto, unfolding(crate::specs::Inside::Climb::above_edge))]
fn above(t: &Table, e: Edge) -> Vertex
    ensures { result.0 ≡ above_edge t.now.words.now t.now.shape.limits e.0 }
{
    top(t, block_of(t, e))
}

// The right side is the deeper one.
#[tactic(auto, unfolding(crate::specs::Inside::Climb::right_deeper))]
fn right_deeper(t: &Table, r: Trail) -> bool
    ensures { result ≡ right_deeper t.now.words.now t.now.shape.limits r }
{
    depth(t, r.a) < depth(t, r.b)
}

// What stands above the vertex on the side that climbs.
fn climber_up(t: &Table, r: Trail, on_right: bool) -> Option<Edge>
    ensures { MatchOption result (up_of t.now.words.now t.now.shape.limits (cond on_right r.b.0 r.a.0) ≡ 0) (λ e. up_of t.now.words.now t.now.shape.limits (cond on_right r.b.0 r.a.0) ≡ e.0 + 1) }
{
    // Two calls, since one call at a vertex that is chosen before has to wait for both depths.
    if on_right { up(t, r.b) } else { up(t, r.a) }
}

// Writes down a step along an edge to the vertex v above its block.
#[tactic(auto, unfolding(crate::specs::Inside::Climb::record_table, crate::specs::Inside::Climb::record_trail))]
fn record_step(t: &mut Table, r: Trail, e: Edge, v: Vertex, on_right: bool) -> Trail
    requires { (r.left < 4294967295) × (r.right < 4294967295) }
    ensures words { t.new.words.now ≡ record_table t.old.words.now t.old.shape.limits r e.0 v.0 on_right }
    ensures trail { result ≡ record_trail r v.0 on_right }
    ensures longer { result.left + result.right ≡ r.left + r.right + 1 }
    ensures same { IsSame t.old t.new }
{
    let area = t.vertex_area();
    if on_right {
        t.set_word(area, RIGHT_EDGE, r.right, e.0);
        t.set_word(area, RIGHT_VERTEX, r.right, r.b.0);
        Trail {
            b: v,
            right: r.right + 1,
            ..r
        }
    } else {
        t.set_word(area, PATH_EDGE, r.left, e.0);
        t.set_word(area, PATH_VERTEX, r.left + 1, v.0);
        Trail {
            a: v,
            left: r.left + 1,
            ..r
        }
    }
}

// From the deeper of two vertices to the block above it, and on from there: until the two are one, or a root is reached, or as many steps
// are made as remain. The numbers of a trail come apart, since they are passed at every step.
#[tactic(auto, unfolding(crate::specs::Inside::Climb::climb_from_block), using(crate::proofs::ClimbSteps::climb_met, crate::proofs::ClimbSteps::climb_none, crate::proofs::ClimbSteps::climb_root, crate::proofs::ClimbSteps::climbing_is, crate::proofs::ClimbSteps::climb_by_block))]
#[cycle(from_block_from_vertex)]
fn from_vertex(t: &mut Table, a: Vertex, b: Vertex, left: u32, right: u32, remaining: u32) -> Trail
    requires { left + right + remaining < 4294967295 }
    ensures words { t.new.words.now ≡ (climb_from remaining t.old.words.now t.old.shape.limits (record { a = a; b = b; left = left; right = right })).table }
    ensures trail { result ≡ (climb_from remaining t.old.words.now t.old.shape.limits (record { a = a; b = b; left = left; right = right })).trail }
    ensures few { result.left + result.right ≤ left + right + remaining }
    ensures same { IsSame t.old t.new }
{
    let r = Trail { a, b, left, right };
    if a == b {
        return r;
    }
    if remaining == 0 {
        return r;
    }
    let on_right = right_deeper(t, r);
    let Some(e) = climber_up(t, r, on_right) else {
        return r;
    };
    from_block(t, r, e, on_right, remaining - 1)
}

// From the block of an edge to the vertex above it, which is a step, and on from there with as many steps as remain.
#[tactic(auto, unfolding(crate::specs::Inside::Climb::climb_from_block), using(crate::proofs::ClimbSteps::climb_met, crate::proofs::ClimbSteps::climb_none, crate::proofs::ClimbSteps::climb_root, crate::proofs::ClimbSteps::climbing_is, crate::proofs::ClimbSteps::climb_by_block))]
#[cycle(from_block_from_vertex)]
fn from_block(t: &mut Table, r: Trail, e: Edge, on_right: bool, remaining: u32) -> Trail
    requires { r.left + r.right + remaining + 1 < 4294967295 }
    ensures words { t.new.words.now ≡ (climb_from_block remaining t.old.words.now t.old.shape.limits r e.0 on_right).table }
    ensures trail { result ≡ (climb_from_block remaining t.old.words.now t.old.shape.limits r e.0 on_right).trail }
    ensures few { result.left + result.right ≤ r.left + r.right + remaining + 1 }
    ensures same { IsSame t.old t.new }
{
    let v = above(t, e);
    let next = record_step(t, r, e, v, on_right);
    from_vertex(t, next.a, next.b, next.left, next.right, remaining)
}

// Steps are left, and the two sides have not met.
fn goes_on(r: Trail, remaining: u32) -> bool
    ensures { result ≡ (nat_lt 0 remaining && not (r.a.0 == r.b.0)) }
{
    0 < remaining && r.a != r.b
}

// How many of the steps that remain are taken in one nest of calls.
fn nested(remaining: u32) -> u32
    ensures { result ≡ min remaining nested_most }
{
    remaining.min(NESTED)
}

// The whole climb: where the path is longer than one nest of calls, the next nest takes it up where the one before has come. It is a `while`,
// since it ends where the two sides meet, and the last nest is of fewer steps.
#[tactic(auto, using(crate::proofs::ClimbSteps::climb_stays, crate::proofs::ClimbSteps::steps_left_lem))]
fn climb_on(t: &mut Table, start: Trail, steps: u32) -> Trail
    requires { start.left + start.right + steps < 4294967295 }
    ensures words { t.new.words.now ≡ (climb_from steps t.old.words.now t.old.shape.limits start).table }
    ensures trail { result ≡ (climb_from steps t.old.words.now t.old.shape.limits start).trail }
    ensures few { result.left + result.right ≤ start.left + start.right + steps }
    ensures same { IsSame t.old t.new }
{
    let mut r = start;
    let mut remaining = steps;
    while goes_on(r, remaining) {
        let some = nested(remaining);
        r = from_vertex(t, r.a, r.b, r.left, r.right, some);
        remaining -= some;
    }
    r
}

// How many steps of the left side stay: where both sides came up through one block, its last step is dropped.
#[tactic(auto, unfolding(crate::specs::Inside::Climb::kept_left, crate::specs::Inside::Climb::same_last))]
fn kept_left(t: &Table, r: Trail) -> u32
    ensures { result ≡ kept_left t.now.words.now t.now.shape.limits r }
{
    if r.left == 0 || r.right == 0 {
        return r.left;
    }
    let left = Edge(t.word(t.vertex_area(), PATH_EDGE, r.left - 1));
    let right = Edge(t.word(t.vertex_area(), RIGHT_EDGE, r.right - 1));
    if block_of(t, left) == block_of(t, right) {
        r.left - 1
    } else {
        r.left
    }
}

// The steps of the right side, turned round, behind the first `kept` steps of the path. The words are named once, before the loop, since each
// store would have them read anew.
#[tactic(auto, unfolding(crate::specs::Inside::Climb::join_one), using(crate::proofs::ClimbSteps::join_step, crate::proofs::ClimbSteps::join_end))]
fn join(t: &mut Table, kept: u32, right: u32)
    requires { kept + right < 4294967295 }
    ensures words { t.new.words.now ≡ join_from right t.old.words.now t.old.shape.limits kept }
    ensures same { IsSame t.old t.new }
{
    let area = t.vertex_area();
    for step in 0..right {
        let k = right - 1 - step;
        let e = t.word(area, RIGHT_EDGE, k);
        let v = t.word(area, RIGHT_VERTEX, k);
        t.set_word(area, PATH_EDGE, kept + step, e);
        t.set_word(area, PATH_VERTEX, kept + step + 1, v);
    }
}

// How many steps the climb may take.
#[tactic(auto, unfolding(crate::specs::Inside::Climb::reach))]
fn reach_of(t: &Table, a: Vertex, b: Vertex) -> u32
    ensures { result ≡ reach t.now.words.now t.now.shape.limits a.0 b.0 }
{
    let both = u64::from(depth(t, a)) + u64::from(depth(t, b));
    both.min(2147483648) as u32
}

// Leaves the path of blocks from a to b in the table: its vertices and its edges, an edge for each block.
#[tactic(auto, unfolding(crate::specs::Inside::Climb::climb_table, crate::specs::Inside::Climb::climb_route, crate::specs::Inside::Climb::climb_both), using(crate::proofs::ClimbSteps::kept_most, crate::proofs::ClimbSteps::reach_most))]
pub(crate) fn climb(t: &mut Table, a: Vertex, b: Vertex) -> Route
    ensures words { t.new.words.now ≡ climb_table t.old.words.now t.old.shape.limits a.0 b.0 }
    ensures route { result ≡ climb_route t.old.words.now t.old.shape.limits a.0 b.0 }
    ensures same { IsSame t.old t.new }
{
    t.set_word(t.vertex_area(), PATH_VERTEX, 0, a.0);
    let remaining = reach_of(t, a, b);
    let start = Trail {
        a,
        b,
        left: 0,
        right: 0,
    };
    let r = climb_on(t, start, remaining);
    let kept = kept_left(t, r);
    join(t, kept, r.right);
    Route {
        steps: kept + r.right,
        top: r.a,
    }
}
