// The working table of the register: names and sizes of components, bridge-blocks and blocks, the marks of vertices, the surveys of edges,
// and one block forest, in words that the caller lends. The operations below are all that a caller needs; what they promise stands in
// specs/Promise.
#![tactic(auto)]

ghost use Rattle.std.specs.Prelude.{◌≡◌, ◌<◌, ◌≤◌, min, true, false, ◌++◌, length, drop, replicate, ◌≢◌};
ghost use Rattle.graph.specs.Network.{edge, mates};
ghost use Rattle.graph.specs.Groups.{component, bridge};
ghost use Rattle.graph.specs.Block.{shared_block};
ghost use Rattle.graph.specs.Between.{bridges_between, cuts_between};
ghost use Rattle.naming.specs.Rename.{size, name_of};
ghost use Rattle.naming.specs.Survey.{holding};
ghost use Rattle.naming.specs.State.{marks_with};
ghost use Rattle.forest.specs.Inside.Words.{group_area};
ghost use Rattle.forest.specs.Promise.{IsSame, words_needed, Holds, holds_prop, state_of, book_in, network_in, Begun, VertexAdded, EdgeAdded, VertexMarked, SurveyEntered, length_given, ListWritten};
ghost use Rattle.forest.specs.Promise.{one_vertex_more, one_edge_more, vertex_names, vertex_groups, vertex_change_at, edge_change_at, shared_name, bridge_at, cut_at};
ghost use Rattle.forest.specs.Promise.{scratch_words, vertex_scratch, edge_scratch, VertexScratchStored, EdgeScratchStored};

pub mod climb;
pub mod query;
pub mod survey;
pub mod tree;

use numbers::{Duct, Edge, Limits, Measure, Shape, Vertex};
pub use table::words::{Readable, Table, View};
use table::words::{
    Area, CHANGED, MARK, MARK_COUNT, NAME, PATH_VERTEX, RIGHT_EDGE, SIZE, WORDS_PER_EDGE,
    WORDS_PER_VERTEX,
};

// The two kinds of groups of vertices. A kind is told by a value, and not by a closure, since the promises name a kind's groups, names and
// changes by it.
#[derive(Clone, Copy)]
pub enum VertexGroups {
    Components,
    BridgeBlocks,
}

// A group of vertices: its name and its size.
#[derive(Clone, Copy)]
pub struct Group {
    pub name: Vertex,
    pub size: u32,
}

// A vertex or an edge, and its new name.
#[derive(Clone, Copy)]
pub struct Change<T> {
    pub item: T,
    pub name: T,
}

// What one edge more did: how many items of each kind changed their name, and the new edge's block name.
#[derive(Clone, Copy)]
pub struct Growth {
    pub components: u32,
    pub bridge_blocks: u32,
    pub blocks: u32,
    pub block: Edge,
}

// The two ends of an edge.
#[derive(Clone, Copy, PartialEq, Eq)]
pub struct Ends {
    pub left: Vertex,
    pub right: Vertex,
}

// A network in a working table: what the table holds is a network of its shape.
#[derive(Drop)]
pub struct Network<'a> {
    pub table: Table<'a>,
    pub ghost holds: { Holds table.shape table.words.now } by { holds_prop table.shape table.words.now },
}

// The same where the words are lent only to be read.
#[derive(Clone, Copy)]
pub struct NetworkView<'a> {
    pub table: View<'a>,
    pub ghost holds: { Holds table.shape table.words.now } by { holds_prop table.shape table.words.now },
}

// How many words a table takes.
#[tactic(auto, unfolding(crate::specs::Promise::words_needed))]
pub fn words_needed(limits: Limits) -> usize
    ensures { result ≡ words_needed limits }
{
    usize::from(limits.vertices) * (WORDS_PER_VERTEX as usize)
        + usize::from(limits.edges) * (WORDS_PER_EDGE as usize)
}

// The size at which a run begins: whatever the words are, the table holds a network without vertices and edges.
pub fn begin(words: &[u32], limits: Limits) -> Shape
    requires { (limits.vertices ≤ 4096) × (limits.edges ≤ 8192) × (words_needed limits ≤ length words.now) }
    ensures { Begun limits words.now result }
{
    Shape {
        limits,
        vertices: 0,
        edges: 0,
    }
}

// Sets the first `count` words to 0, or all where there are fewer.
pub fn clear(t: &mut [u32], count: usize)
    ensures { t.new ≡ replicate (min count (length t.old)) 0 ++ drop count t.old }
{
    let end = count.min(t.len());
    t[..end].fill(0);
}

impl<'a> Network<'a> {
    // Begins a run: whatever the words are, the table holds a network without vertices and edges.
    pub fn new(words: &'a mut [u32], limits: Limits) -> Network<'a>
        requires { (limits.vertices ≤ 4096) × (limits.edges ≤ 8192) × (words_needed limits ≤ length words.old) }
        ensures begun { Begun limits result.table.words.now result.table.shape }
        ensures words { result.table.words.now ≡ words.old }
        ensures reference { result.table.words.ghost_name ≡ words.entry.ghost_name }
    {
        let shape = begin(words, limits);
        Network {
            table: Table { words, shape },
        }
    }
}

impl NetworkView<'_> {
    // Whether a vertex is marked.
    #[tactic(auto, using(crate::proofs::Marks::marked_is))]
    pub fn is_marked(&self, x: Vertex) -> bool
        requires { x.0 < self.now.table.shape.vertices }
        ensures { result ≡ (state_of self.now.table.shape self.now.table.words.now).marked x.0 }
    {
        self.table.word(self.table.vertex_area(), MARK, x.0) == 1
    }

    // How many of the vertices in a vertex's bridge-block are marked.
    #[tactic(auto, using(crate::proofs::Marks::marks_are))]
    pub fn marks_with(&self, x: Vertex) -> u32
        requires { x.0 < self.now.table.shape.vertices }
        ensures { result ≡ marks_with (state_of self.now.table.shape self.now.table.words.now) x.0 }
    {
        let area = self.table.bridge_block_area();
        let name = self.table.word(area, NAME, x.0);
        self.table.word(area, MARK_COUNT, name)
    }

    // The length of an edge in metres, by the survey that holds, if there is one.
    #[tactic(auto, using(crate::proofs::Surveys::length_is))]
    pub fn length_of(&self, s: Edge) -> Option<u32>
        requires { s.0 < self.now.table.shape.edges }
        ensures { result ≡ length_given (holding (state_of self.now.table.shape self.now.table.words.now).surveys s.0) }
    {
        survey::kept_length(&self.table, s)
    }

    // The group of a vertex.
    #[tactic(auto, using(crate::proofs::QueryNames::group_name, crate::proofs::QueryNames::group_size_lem))]
    pub fn group_of(&self, groups: VertexGroups, x: Vertex) -> Group
        requires { x.0 < self.now.table.shape.vertices }
        ensures name { result.name.0 ≡ name_of (vertex_names groups (book_in self.now.table.shape self.now.table.words.now)) x.0 }
        ensures size { result.size ≡ size self.now.table.shape.vertices (vertex_groups groups (network_in self.now.table.shape self.now.table.words.now)) x.0 }
    {
        let area = area_of(&self.table, groups);
        let name = self.table.word(area, NAME, x.0);
        let size = self.table.word(area, SIZE, name);
        Group {
            name: Vertex(name),
            size,
        }
    }

    // Whether two vertices share a group.
    #[tactic(auto, using(crate::proofs::Operations::shares_group))]
    pub fn same_group(&self, groups: VertexGroups, a: Vertex, b: Vertex) -> bool
        requires { (a.0 < self.now.table.shape.vertices) × (b.0 < self.now.table.shape.vertices) }
        ensures { result ≡ vertex_groups groups (network_in self.now.table.shape self.now.table.words.now) a.0 b.0 }
    {
        let area = area_of(&self.table, groups);
        self.table.word(area, NAME, a.0) == self.table.word(area, NAME, b.0)
    }

    // The block name of an edge.
    #[tactic(auto, using(crate::proofs::QueryNames::block_name_lem))]
    pub fn block_name(&self, s: Edge) -> Edge
        requires { s.0 < self.now.table.shape.edges }
        ensures { result.0 ≡ name_of (book_in self.now.table.shape self.now.table.words.now).blocks s.0 }
    {
        climb::block_of(&self.table, s)
    }

    // The two ends of an edge.
    #[tactic(auto, using(crate::proofs::Operations::tells_left, crate::proofs::Operations::tells_right))]
    pub fn ends_of(&self, s: Edge) -> Ends
        requires { s.0 < self.now.table.shape.edges }
        ensures left { result.left.0 ≡ (edge (network_in self.now.table.shape self.now.table.words.now) s.0).left }
        ensures right { result.right.0 ≡ (edge (network_in self.now.table.shape self.now.table.words.now) s.0).right }
    {
        query::ends_of(&self.table, s)
    }

    // Whether two edges are mates: one edge, or lost together.
    #[tactic(auto, using(crate::proofs::Operations::tells_same, crate::proofs::Operations::tells_other))]
    pub fn are_mates(&self, s: Edge, other: Edge) -> bool
        requires { (s.0 < self.now.table.shape.edges) × (other.0 < self.now.table.shape.edges) }
        ensures { result ≡ mates (network_in self.now.table.shape self.now.table.words.now) s.0 other.0 }
    {
        s == other || query::lost_together(&self.table, s, other)
    }

    // The block that has an edge at each of two different vertices, by its name, if there is one.
    #[tactic(auto, using(crate::proofs::Operations::tells_shared))]
    pub fn shared_block(&self, a: Vertex, b: Vertex) -> Option<Edge>
        requires { (a.0 < self.now.table.shape.vertices) × (b.0 < self.now.table.shape.vertices) × (a.0 ≢ b.0) }
        ensures { result ≡ shared_name (book_in self.now.table.shape self.now.table.words.now).blocks (shared_block (network_in self.now.table.shape self.now.table.words.now) a.0 b.0) }
    {
        query::find_shared(&self.table, a, b)
    }

    // Whether an edge is a bridge.
    #[tactic(auto, using(crate::proofs::Operations::tells_bridge))]
    pub fn is_bridge(&self, s: Edge) -> bool
        requires { s.0 < self.now.table.shape.edges }
        ensures { result ≡ bridge (network_in self.now.table.shape self.now.table.words.now) s.0 }
    {
        query::ends_differ(&self.table, s)
    }
}

impl Network<'_> {
    // The network, to be read.
    pub fn view(&self) -> NetworkView<'_>
        ensures words { result.table.words.now ≡ self.now.table.words.now }
        ensures shape { result.table.shape ≡ self.now.table.shape }
    {
        NetworkView {
            table: self.table.view(),
        }
    }

    // Adds the next vertex.
    pub fn add_vertex(&mut self)
        requires { self.old.table.shape.vertices < self.old.table.shape.limits.vertices }
        ensures added { VertexAdded self.old.table.shape self.old.table.words.now self.new.table.words.now }
        ensures shape { self.new.table.shape ≡ one_vertex_more self.old.table.shape }
        ensures reference { self.new.table.words.ghost_name ≡ self.old.table.words.ghost_name }
    {
        let x = Vertex(self.table.shape.vertices);
        tree::grow_vertex(&mut self.table, x);
        self.table.shape.vertices += 1;
    }

    // Adds the next edge, between two different vertices, in a duct, which is 0 where none is told.
    pub fn add_edge(&mut self, a: Vertex, b: Vertex, duct: Duct) -> Growth
        requires { (self.old.table.shape.edges < self.old.table.shape.limits.edges) × (a.0 < self.old.table.shape.vertices) × (b.0 < self.old.table.shape.vertices) × (a.0 ≢ b.0) }
        ensures added { EdgeAdded self.old.table.shape a.0 b.0 duct.0 self.old.table.words.now self.new.table.words.now result }
        ensures shape { self.new.table.shape ≡ one_edge_more self.old.table.shape }
        ensures reference { self.new.table.words.ghost_name ≡ self.old.table.words.ghost_name }
    {
        let s = Edge(self.table.shape.edges);
        let growth = tree::grow_edge(&mut self.table, s, a, b, duct);
        self.table.shape.edges += 1;
        growth
    }

    // Marks a vertex that is not marked.
    pub fn mark(&mut self, x: Vertex)
        requires { (x.0 < self.old.table.shape.vertices) × ((state_of self.old.table.shape self.old.table.words.now).marked x.0 ≡ false) }
        ensures marked { VertexMarked self.old.table.shape x.0 self.old.table.words.now self.new.table.words.now }
        ensures same { IsSame self.old.table self.new.table }
    {
        tree::mark_vertex(&mut self.table, x);
    }

    // Whether a vertex is marked.
    pub fn is_marked(&self, x: Vertex) -> bool
        requires { x.0 < self.now.table.shape.vertices }
        ensures { result ≡ (state_of self.now.table.shape self.now.table.words.now).marked x.0 }
    {
        self.view().is_marked(x)
    }

    // How many of the vertices in a vertex's bridge-block are marked.
    pub fn marks_with(&self, x: Vertex) -> u32
        requires { x.0 < self.now.table.shape.vertices }
        ensures { result ≡ marks_with (state_of self.now.table.shape self.now.table.words.now) x.0 }
    {
        self.view().marks_with(x)
    }

    // Enters a survey of an edge.
    pub fn enter_survey(&mut self, s: Edge, measure: Measure)
        requires { s.0 < self.old.table.shape.edges }
        ensures entered { SurveyEntered self.old.table.shape (record { measured = s.0; day = measure.day; metres = measure.metres }) self.old.table.words.now self.new.table.words.now }
        ensures same { IsSame self.old.table self.new.table }
    {
        survey::keep_survey(&mut self.table, s, measure);
    }

    // The length of an edge in metres, by the survey that holds, if there is one.
    pub fn length_of(&self, s: Edge) -> Option<u32>
        requires { s.0 < self.now.table.shape.edges }
        ensures { result ≡ length_given (holding (state_of self.now.table.shape self.now.table.words.now).surveys s.0) }
    {
        self.view().length_of(s)
    }

    // The group of a vertex.
    pub fn group_of(&self, groups: VertexGroups, x: Vertex) -> Group
        requires { x.0 < self.now.table.shape.vertices }
        ensures name { result.name.0 ≡ name_of (vertex_names groups (book_in self.now.table.shape self.now.table.words.now)) x.0 }
        ensures size { result.size ≡ size self.now.table.shape.vertices (vertex_groups groups (network_in self.now.table.shape self.now.table.words.now)) x.0 }
    {
        self.view().group_of(groups, x)
    }

    // Whether two vertices share a group.
    pub fn same_group(&self, groups: VertexGroups, a: Vertex, b: Vertex) -> bool
        requires { (a.0 < self.now.table.shape.vertices) × (b.0 < self.now.table.shape.vertices) }
        ensures { result ≡ vertex_groups groups (network_in self.now.table.shape self.now.table.words.now) a.0 b.0 }
    {
        self.view().same_group(groups, a, b)
    }

    // The block name of an edge.
    pub fn block_name(&self, s: Edge) -> Edge
        requires { s.0 < self.now.table.shape.edges }
        ensures { result.0 ≡ name_of (book_in self.now.table.shape self.now.table.words.now).blocks s.0 }
    {
        self.view().block_name(s)
    }

    // The two ends of an edge.
    pub fn ends_of(&self, s: Edge) -> Ends
        requires { s.0 < self.now.table.shape.edges }
        ensures left { result.left.0 ≡ (edge (network_in self.now.table.shape self.now.table.words.now) s.0).left }
        ensures right { result.right.0 ≡ (edge (network_in self.now.table.shape self.now.table.words.now) s.0).right }
    {
        self.view().ends_of(s)
    }

    // Whether two edges are mates: one edge, or lost together.
    pub fn are_mates(&self, s: Edge, other: Edge) -> bool
        requires { (s.0 < self.now.table.shape.edges) × (other.0 < self.now.table.shape.edges) }
        ensures { result ≡ mates (network_in self.now.table.shape self.now.table.words.now) s.0 other.0 }
    {
        self.view().are_mates(s, other)
    }

    // The block that has an edge at each of two different vertices, by its name, if there is one.
    pub fn shared_block(&self, a: Vertex, b: Vertex) -> Option<Edge>
        requires { (a.0 < self.now.table.shape.vertices) × (b.0 < self.now.table.shape.vertices) × (a.0 ≢ b.0) }
        ensures { result ≡ shared_name (book_in self.now.table.shape self.now.table.words.now).blocks (shared_block (network_in self.now.table.shape self.now.table.words.now) a.0 b.0) }
    {
        self.view().shared_block(a, b)
    }

    // Whether an edge is a bridge.
    pub fn is_bridge(&self, s: Edge) -> bool
        requires { s.0 < self.now.table.shape.edges }
        ensures { result ≡ bridge (network_in self.now.table.shape self.now.table.words.now) s.0 }
    {
        self.view().is_bridge(s)
    }

    // Writes down the bridges between two vertices of one component, in travelling order; gives their number.
    pub fn bridges_between(&mut self, a: Vertex, b: Vertex) -> u32
        requires { (a.0 < self.old.table.shape.vertices) × (b.0 < self.old.table.shape.vertices) × (component (network_in self.old.table.shape self.old.table.words.now) a.0 b.0 ≡ true) }
        ensures written { ListWritten self.old.table.shape self.old.table.words.now self.new.table.words.now (bridge_at self.old.table.shape self.new.table.words.now) result (bridges_between (network_in self.old.table.shape self.old.table.words.now) a.0 b.0) }
        ensures same { IsSame self.old.table self.new.table }
    {
        query::find_bridges(&mut self.table, a, b)
    }

    // Writes down the cut vertices between two vertices of one component, in travelling order; gives their number.
    pub fn cuts_between(&mut self, a: Vertex, b: Vertex) -> u32
        requires { (a.0 < self.old.table.shape.vertices) × (b.0 < self.old.table.shape.vertices) × (component (network_in self.old.table.shape self.old.table.words.now) a.0 b.0 ≡ true) }
        ensures written { ListWritten self.old.table.shape self.old.table.words.now self.new.table.words.now (cut_at self.old.table.shape self.new.table.words.now) result (cuts_between (network_in self.old.table.shape self.old.table.words.now) a.0 b.0) }
        ensures same { IsSame self.old.table self.new.table }
    {
        query::find_cuts(&mut self.table, a, b)
    }

    // Stores scratch word k of a vertex.
    pub fn set_vertex_scratch(&mut self, k: u8, x: Vertex, value: u32)
        requires { (k < scratch_words) × (x.0 < self.old.table.shape.limits.vertices) }
        ensures stored { VertexScratchStored self.old.table.shape k x.0 value self.old.table.words.now self.new.table.words.now }
        ensures same { IsSame self.old.table self.new.table }
    {
        let area = self.table.vertex_area();
        self.table.set_word(area, PATH_VERTEX + k, x.0, value);
    }

    // Stores the scratch word of an edge.
    pub fn set_edge_scratch(&mut self, s: Edge, value: u32)
        requires { s.0 < self.old.table.shape.limits.edges }
        ensures stored { EdgeScratchStored self.old.table.shape s.0 value self.old.table.words.now self.new.table.words.now }
        ensures same { IsSame self.old.table self.new.table }
    {
        let area = self.table.edge_area();
        self.table.set_word(area, CHANGED, s.0, value);
    }
}

// What is told of vertices below, and what is told of edges, are functions of their own, here as above: the numbers of the two are types of
// their own, and stand in columns of their own.
//
// The words of a kind of groups of vertices.
fn area_of<T: Readable>(t: &T, groups: VertexGroups) -> Area
    ensures { result ≡ group_area (T.shape t.now).limits groups }
{
    match groups {
        VertexGroups::Components => t.vertex_area(),
        VertexGroups::BridgeBlocks => t.bridge_block_area(),
    }
}

// Bridge i of those that are written down.
#[tactic(auto, unfolding(crate::specs::Promise::bridge_at))]
pub fn bridge_at<T: Readable>(t: &T, i: u32) -> Edge
    ensures { result.0 ≡ bridge_at (T.shape t.now) (T.words t.now) i }
{
    Edge(t.word(t.vertex_area(), RIGHT_EDGE, i))
}

// Cut vertex i of those that are written down.
#[tactic(auto, unfolding(crate::specs::Promise::cut_at))]
pub fn cut_at<T: Readable>(t: &T, i: u32) -> Vertex
    ensures { result.0 ≡ cut_at (T.shape t.now) (T.words t.now) i }
{
    Vertex(t.word_behind(t.vertex_area(), PATH_VERTEX, i))
}

// Change i of the vertices' names of a kind, of those that are written down.
#[tactic(auto, unfolding(crate::specs::Promise::vertex_change_at))]
pub fn vertex_change_at<T: Readable>(t: &T, groups: VertexGroups, i: u32) -> Change<Vertex>
    ensures item { result.item.0 ≡ (vertex_change_at (T.shape t.now) groups (T.words t.now) i).item }
    ensures name { result.name.0 ≡ (vertex_change_at (T.shape t.now) groups (T.words t.now) i).name }
{
    let area = area_of(t, groups);
    let x = t.word(area, CHANGED, i);
    let name = t.word(area, NAME, x);
    Change {
        item: Vertex(x),
        name: Vertex(name),
    }
}

// Change i of the edges' names, of those that are written down.
#[tactic(auto, unfolding(crate::specs::Promise::edge_change_at))]
pub fn edge_change_at<T: Readable>(t: &T, i: u32) -> Change<Edge>
    ensures item { result.item.0 ≡ (edge_change_at (T.shape t.now) (T.words t.now) i).item }
    ensures name { result.name.0 ≡ (edge_change_at (T.shape t.now) (T.words t.now) i).name }
{
    let s = t.word(t.edge_area(), CHANGED, i);
    let name = t.word(t.edge_area(), NAME, s);
    Change {
        item: Edge(s),
        name: Edge(name),
    }
}

// Scratch word k of a vertex.
#[tactic(auto, unfolding(crate::specs::Promise::vertex_scratch))]
pub fn vertex_scratch<T: Readable>(t: &T, k: u8, x: Vertex) -> u32
    requires { k < scratch_words }
    ensures { result ≡ vertex_scratch (T.shape t.now) (T.words t.now) k x.0 }
{
    t.word(t.vertex_area(), PATH_VERTEX + k, x.0)
}

// The scratch word of an edge.
#[tactic(auto, unfolding(crate::specs::Promise::edge_scratch))]
pub fn edge_scratch<T: Readable>(t: &T, s: Edge) -> u32
    ensures { result ≡ edge_scratch (T.shape t.now) (T.words t.now) s.0 }
{
    t.word(t.edge_area(), CHANGED, s.0)
}
