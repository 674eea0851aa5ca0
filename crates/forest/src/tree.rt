// Growing the block forest: one vertex more, and one edge more, which links two components or condenses the path between two vertices;
// and marking a vertex.
ghost use Rattle.std.specs.Prelude.{suc, IfSome, ◌≡◌, ◌<◌};
ghost use Rattle.table.specs.Same.{IsSame};
ghost use Rattle.forest.specs.Inside.Tree.{new_group, new_marks, vertex_table, mark_table, raise_from, turn_from, turned_table, turned_next, hang_table, link_grown};
ghost use Rattle.forest.specs.Inside.Tree.{enter_block, in_step_duct, merged_vertices, condense_grown, edge_table, edge_grown};
ghost use Rattle.forest.specs.Inside.Tree.{GrowsTo};

use crate::Growth;
use crate::climb::{block_of, climb, depth, top, up};
use crate::survey::duct_of;
use numbers::{Duct, Edge, Vertex};
use table::merge::Listing;
use table::words::{
    Area, CHANGED, DEPTH, DUCT, ENDS, MARK, MARK_COUNT, NAME, PATH_EDGE, PATH_VERTEX, RANGE, SIZE,
    TOP, Table, UP,
};

// A vertex on a way up that is turned round: the edge by whose block it is to hang, and the depth to store.
#[derive(Clone, Copy)]
pub struct Turning {
    pub at: Vertex,
    pub by: Edge,
    pub depth: u32,
}

// A group of one item, named by its number.
#[tactic(auto, unfolding(crate::specs::Inside::Tree::new_group))]
fn new_group(t: &mut Table, area: Area, x: u32)
    ensures words { t.new.words.now ≡ new_group t.old.words.now area x }
    ensures same { IsSame t.old t.new }
{
    t.set_word(area, NAME, x, x);
    t.set_word(area, SIZE, x, 1);
    let range = (x % 65536) * 65536 + x % 65536;
    t.set_word(area, RANGE, x, range);
}

// A new vertex is not marked, and its bridge-block, named by its number, has no marks.
#[tactic(auto, unfolding(crate::specs::Inside::Tree::new_marks))]
fn new_marks(t: &mut Table, x: Vertex)
    ensures words { t.new.words.now ≡ new_marks t.old.words.now t.old.shape.limits x.0 }
    ensures same { IsSame t.old t.new }
{
    t.set_word(t.bridge_block_area(), MARK_COUNT, x.0, 0);
    t.set_word(t.vertex_area(), MARK, x.0, 0);
}

// One vertex more: a component, a bridge-block and a root by itself, not marked.
#[tactic(auto, unfolding(crate::specs::Inside::Tree::vertex_table))]
pub(crate) fn grow_vertex(t: &mut Table, x: Vertex)
    ensures words { t.new.words.now ≡ vertex_table t.old.words.now t.old.shape.limits x.0 }
    ensures same { IsSame t.old t.new }
{
    new_group(t, t.vertex_area(), x.0);
    new_group(t, t.bridge_block_area(), x.0);
    t.set_word(t.vertex_area(), UP, x.0, 0);
    t.set_word(t.vertex_area(), DEPTH, x.0, 0);
    new_marks(t, x);
}

// The vertex is marked, and its bridge-block has one mark more.
#[tactic(auto, unfolding(crate::specs::Inside::Tree::mark_table))]
pub(crate) fn mark_vertex(t: &mut Table, x: Vertex)
    ensures words { t.new.words.now ≡ mark_table t.old.words.now t.old.shape.limits x.0 }
    ensures same { IsSame t.old t.new }
{
    let name = t.word(t.bridge_block_area(), NAME, x.0);
    let marks = t.word(t.bridge_block_area(), MARK_COUNT, name);
    let more = marks.wrapping_add(1);
    t.set_word(t.bridge_block_area(), MARK_COUNT, name, more);
    t.set_word(t.vertex_area(), MARK, x.0, 1);
}

// Raises the depths of the vertices written down as changed. The words are named once, before the loop, since each store would have them read
// anew.
#[tactic(auto, using(crate::proofs::TreeSteps::raise_step, crate::proofs::TreeSteps::raise_end))]
fn raise(t: &mut Table, changed: u32, by: u32)
    ensures words { t.new.words.now ≡ raise_from changed t.old.words.now t.old.shape.limits by 0 }
    ensures same { IsSame t.old t.new }
{
    let area = t.vertex_area();
    for i in 0..changed {
        let x = t.word(area, CHANGED, i);
        let old = t.word(area, DEPTH, x);
        t.set_word(area, DEPTH, x, old.wrapping_add(by));
    }
}

// One vertex of a way up that is turned round; gives the next one, if the vertex was no root.
#[tactic(auto, unfolding(crate::specs::Inside::Tree::hung_vertex, crate::specs::Inside::Tree::hung_block, crate::specs::Inside::Tree::turned_table, crate::specs::Inside::Tree::turned_next, crate::specs::Inside::Climb::above_edge))]
fn turn_one(t: &mut Table, s: Turning) -> Option<Turning>
    requires { s.by.0 < 4294967295 }
    ensures words { t.new.words.now ≡ turned_table t.old.words.now t.old.shape.limits s }
    ensures next { result ≡ turned_next t.old.words.now t.old.shape.limits s }
    ensures fits { IfSome result (λ r. r.by.0 < 4294967295) }
    ensures same { IsSame t.old t.new }
{
    let at = s.at;
    let above = up(t, at);
    t.set_word(t.vertex_area(), UP, at.0, s.by.to_word());
    t.set_word(t.vertex_area(), DEPTH, at.0, s.depth);
    let e = above?;
    let block = block_of(t, e);
    let next = top(t, block);
    t.set_word(t.edge_area(), TOP, block.0, at.0);
    Some(Turning {
        at: next,
        by: e,
        depth: s.depth.wrapping_add(1),
    })
}

// The way up from a vertex turned round, with at most so many steps.
#[tactic(auto, using(crate::proofs::TreeSteps::turn_on, crate::proofs::TreeSteps::turn_root, crate::proofs::TreeSteps::turn_end))]
fn turn(t: &mut Table, start: Turning, steps: u64)
    requires { start.by.0 < 4294967295 }
    ensures words { t.new.words.now ≡ turn_from steps t.old.words.now t.old.shape.limits start.at.0 (suc start.by.0) start.depth }
    ensures same { IsSame t.old t.new }
{
    let mut s = start;
    for _step in 0..steps {
        let Some(next) = turn_one(t, s) else {
            return;
        };
        s = next;
    }
}

// The component of u hung below v by the new edge e.
#[tactic(auto, unfolding(crate::specs::Inside::Tree::hang_table))]
fn hang(t: &mut Table, e: Edge, u: Vertex, v: Vertex, changed: u32)
    requires { e.0 < 4294967295 }
    ensures words { t.new.words.now ≡ hang_table t.old.words.now t.old.shape.limits e.0 u.0 v.0 changed }
    ensures same { IsSame t.old t.new }
{
    let below = depth(t, u);
    let start = depth(t, v).wrapping_add(1);
    raise(t, changed, start.wrapping_add(below));
    new_group(t, t.edge_area(), e.0);
    t.set_word(t.edge_area(), TOP, e.0, v.0);
    let first = Turning {
        at: u,
        by: e,
        depth: start,
    };
    turn(t, first, u64::from(below) + 1);
}

// Links two components by the new edge e: the one that loses its name is hung below the other.
#[tactic(auto, unfolding(crate::specs::Inside::Tree::link_grown, crate::specs::Inside::Tree::list_ends, crate::specs::Inside::Tree::path_vertices))]
fn link(t: &mut Table, e: Edge, a: Vertex, b: Vertex) -> Growth
    requires { e.0 < 4294967295 }
    ensures grown { GrowsTo t.new.words.now result (link_grown t.old.words.now t.old.shape.limits e.0 a.0 b.0) }
    ensures same { IsSame t.old t.new }
{
    let name = t.word(t.vertex_area(), NAME, a.0);
    t.set_word(t.vertex_area(), PATH_VERTEX, 0, a.0);
    t.set_word(t.vertex_area(), PATH_VERTEX, 1, b.0);
    let m = t.merge(
        t.vertex_area(),
        Listing {
            area: t.vertex_area(),
            column: PATH_VERTEX,
            count: 2,
        },
    );
    let (loser, winner) = if name == m.name { (b, a) } else { (a, b) };
    hang(t, e, loser, winner, m.changed);
    Growth {
        components: m.changed,
        bridge_blocks: 0,
        blocks: 0,
        block: e,
    }
}

// Puts the new edge e into the block named w, below the vertex v.
#[tactic(auto, unfolding(crate::specs::Inside::Tree::enter_block, table::specs::Inside::Merge::least_of))]
fn enter_block(t: &mut Table, e: Edge, w: u32, v: Vertex)
    ensures words { t.new.words.now ≡ enter_block t.old.words.now t.old.shape.limits e.0 w v.0 }
    ensures same { IsSame t.old t.new }
{
    let size = t.word(t.edge_area(), SIZE, w).wrapping_add(1);
    let range = (t.word(t.edge_area(), RANGE, w) / 65536) * 65536 + e.0 % 65536;
    t.set_word(t.edge_area(), NAME, e.0, w);
    t.set_word(t.edge_area(), SIZE, w, size);
    t.set_word(t.edge_area(), RANGE, w, range);
    t.set_word(t.edge_area(), TOP, w, v.0);
}

// Whether the path has one step, and the new edge e lies in the duct of the edge of that step.
#[tactic(auto, unfolding(crate::specs::Inside::Tree::in_step_duct))]
fn in_step_duct(t: &Table, e: Edge, steps: u32) -> bool
    ensures { result ≡ in_step_duct t.now.words.now t.now.shape.limits e.0 steps }
{
    let other = t.word(t.vertex_area(), PATH_EDGE, 0);
    steps == 1 && duct_of(t, Edge(other)) == duct_of(t, e)
}

// How many of the path's vertices have their bridge-blocks merged: only the first, which changes nothing, where e lies in the step's duct.
#[tactic(auto, unfolding(crate::specs::Inside::Tree::merged_vertices))]
fn merged_vertices(t: &Table, e: Edge, steps: u32) -> u32
    requires { steps < 4294967295 }
    ensures { result ≡ merged_vertices t.now.words.now t.now.shape.limits e.0 steps }
{
    if in_step_duct(t, e, steps) {
        1
    } else {
        steps + 1
    }
}

// Condenses the path between a and b by the new edge e.
#[tactic(auto, unfolding(crate::specs::Inside::Tree::condense_grown, crate::specs::Inside::Tree::path_vertices, crate::specs::Inside::Tree::path_edges), using(crate::proofs::TreeSteps::route_most))]
fn condense(t: &mut Table, e: Edge, a: Vertex, b: Vertex) -> Growth
    ensures grown { GrowsTo t.new.words.now result (condense_grown t.old.words.now t.old.shape.limits e.0 a.0 b.0) }
    ensures same { IsSame t.old t.new }
{
    let route = climb(t, a, b);
    let steps = route.steps;
    let vertices = merged_vertices(t, e, steps);
    let bridge_blocks = t.merge(
        t.bridge_block_area(),
        Listing {
            area: t.vertex_area(),
            column: PATH_VERTEX,
            count: vertices,
        },
    );
    let blocks = t.merge(
        t.edge_area(),
        Listing {
            area: t.vertex_area(),
            column: PATH_EDGE,
            count: steps,
        },
    );
    let v = route.top;
    enter_block(t, e, blocks.name, v);
    Growth {
        components: 0,
        bridge_blocks: bridge_blocks.changed,
        blocks: blocks.changed,
        block: Edge(blocks.name),
    }
}

// Stores the new edge e: its ends in one word, its duct in another.
#[tactic(auto, unfolding(crate::specs::Inside::Tree::edge_table))]
fn store_edge(t: &mut Table, e: Edge, a: Vertex, b: Vertex, duct: Duct)
    ensures words { t.new.words.now ≡ edge_table t.old.words.now t.old.shape.limits e.0 a.0 b.0 duct.0 }
    ensures same { IsSame t.old t.new }
{
    let ends = (a.0 % 65536) * 65536 + b.0 % 65536;
    t.set_word(t.edge_area(), ENDS, e.0, ends);
    t.set_word(t.edge_area(), DUCT, e.0, u32::from(duct.0));
}

// One edge more, between two different vertices, in a duct, which is 0 where none is told.
#[tactic(auto, unfolding(crate::specs::Inside::Tree::edge_grown))]
pub(crate) fn grow_edge(t: &mut Table, e: Edge, a: Vertex, b: Vertex, duct: Duct) -> Growth
    requires { e.0 < 4294967295 }
    ensures grown { GrowsTo t.new.words.now result (edge_grown t.old.words.now t.old.shape.limits e.0 a.0 b.0 duct.0) }
    ensures same { IsSame t.old t.new }
{
    store_edge(t, e, a, b, duct);
    let left = t.word(t.vertex_area(), NAME, a.0);
    let right = t.word(t.vertex_area(), NAME, b.0);
    if left == right {
        condense(t, e, a, b)
    } else {
        link(t, e, a, b)
    }
}
