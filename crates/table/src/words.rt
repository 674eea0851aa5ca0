// The words of the working table, laid out column by column: first the columns of the vertices, then those of the edges. The numbers
// below stand in specs/Inside/Column too, by which the contracts speak.
ghost use Rattle.std.specs.Prelude.{List, ℕ, ◌≡◌, suc, slice_index};
ghost use Rattle.numbers.specs.declared.Shape.{Shape};
ghost use Rattle.table.specs.Inside.Layout.{place, cell, put, vertex_area, bridge_block_area, edge_area};

use numbers::{Limits, Shape};

// How many words each vertex takes, and each edge.
pub const WORDS_PER_VERTEX: u32 = 24;

pub const WORDS_PER_EDGE: u32 = 8;

// A column is a number and no enum, since it is a place in the layout that is counted, added and looped over. A word that has two numbers of 16
// bits is put together and taken apart by `* 65536 +`, `/` and `%` where it is used: the definitions say it so, and whether a number is cut to its
// 16 bits differs from word to word.
//
// The columns of each kind of group: an item's name; by a name, the range of its group's items; the items that changed their name; by a
// name, its group's size. From SIZE on, up to the last column of the kind, merging adds up what groups have.
pub const NAME: u8 = 0;

pub const RANGE: u8 = 1;

pub const CHANGED: u8 = 2;

pub const SIZE: u8 = 3;

// Of bridge-blocks besides: by a name, how many of its group's vertices are marked.
pub const MARK_COUNT: u8 = 4;

// How many columns components have, bridge-blocks, and blocks. Those of the bridge-blocks stand behind those of the components.
const COMPONENT_COLUMNS: u8 = 4;

const BRIDGE_BLOCK_COLUMNS: u8 = 5;

const BLOCK_COLUMNS: u8 = 4;

// The other columns of the edges: an edge's two ends; by a block's name, the vertex above it; an edge's duct, and in the upper half of that
// word whether a survey of the edge is kept; the day and the metres of that survey.
pub const ENDS: u8 = BLOCK_COLUMNS;

pub const TOP: u8 = ENDS + 1;

pub const DUCT: u8 = ENDS + 2;

pub const SURVEY: u8 = ENDS + 3;

// The other columns of the vertices: the way up, the depth, the path's vertices and edges, those of its right side, and whether the vertex
// is marked.
pub const UP: u8 = COMPONENT_COLUMNS + BRIDGE_BLOCK_COLUMNS;

pub const DEPTH: u8 = UP + 1;

pub const PATH_VERTEX: u8 = UP + 2;

pub const PATH_EDGE: u8 = UP + 3;

pub const RIGHT_VERTEX: u8 = UP + 4;

pub const RIGHT_EDGE: u8 = UP + 5;

pub const MARK: u8 = UP + 6;

// The columns of a kind of group, and those behind them: where they begin, how many items each has a word for, and how many are of the
// kind.
#[derive(Clone, Copy)]
pub struct Area {
    pub base: u32,
    pub size: u16,
    pub columns: u8,
}

// The working table: the words that the caller lends, how many vertices and edges it has words for, and how many it holds.
#[derive(Drop)]
pub struct Table<'a> {
    pub words: &'a mut [u32],
    pub shape: Shape,
}

// The same where the words are lent only to be read.
#[derive(Clone, Copy)]
pub struct View<'a> {
    pub words: &'a [u32],
    pub shape: Shape,
}

// The words of the vertices, of which the components have the first columns.
pub fn vertex_area(limits: Limits) -> Area
    ensures { result ≡ vertex_area limits }
{
    Area {
        base: 0,
        size: limits.vertices,
        columns: COMPONENT_COLUMNS,
    }
}

// The words of the bridge-blocks among them.
pub fn bridge_block_area(limits: Limits) -> Area
    ensures { result ≡ bridge_block_area limits }
{
    Area {
        base: u32::from(limits.vertices) * u32::from(COMPONENT_COLUMNS),
        size: limits.vertices,
        columns: BRIDGE_BLOCK_COLUMNS,
    }
}

// The words of the edges, of which the blocks have the first columns.
pub fn edge_area(limits: Limits) -> Area
    ensures { result ≡ edge_area limits }
{
    Area {
        base: u32::from(limits.vertices) * WORDS_PER_VERTEX,
        size: limits.edges,
        columns: BLOCK_COLUMNS,
    }
}

// Where the word of an item stands.
#[tactic(auto, unfolding(crate::specs::Inside::Layout::place))]
fn place_of(area: Area, column: u8, item: u32) -> usize
    ensures { result ≡ place area column item }
{
    (area.base as usize) + usize::from(column) * usize::from(area.size) + (item as usize)
}

// The word at a place; 0 where there is no such word. It is a test, since with `get` a pass over all vertices takes a quarter longer.
fn word_at(words: &[u32], at: usize) -> u32
    ensures { result ≡ slice_index words.now at }
{
    if at < words.len() { words[at] } else { 0 }
}

// The word of an item in a column; 0 where there is no such word.
#[tactic(auto, unfolding(crate::specs::Inside::Layout::cell))]
pub fn word(words: &[u32], area: Area, column: u8, item: u32) -> u32
    ensures { result ≡ cell words.now area column item }
{
    word_at(words, place_of(area, column, item))
}

// The word of the item behind an item, in a column; 0 where there is no such word.
#[tactic(auto, unfolding(crate::specs::Inside::Layout::cell, crate::specs::Inside::Layout::place))]
pub fn word_behind(words: &[u32], area: Area, column: u8, item: u32) -> u32
    ensures { result ≡ cell words.now area column (suc item) }
{
    word_at(words, place_of(area, column, item) + 1)
}

// What a table tells to whoever reads it, whether its words are lent to be changed or only to be read. A function that only reads is over
// any type that tells this.
pub trait Readable {
    ghost words: { Self → List ℕ };

    ghost shape: { Self → Shape };

    // The words.
    fn lent(&self) -> &[u32]
        ensures { result.now ≡ words self.now };

    // How many vertices and edges there are words for, and how many there are.
    fn size(&self) -> Shape
        ensures { result ≡ shape self.now };

    fn vertex_area(&self) -> Area
        ensures { result ≡ vertex_area (shape self.now).limits }
    {
        vertex_area(self.size().limits)
    }

    fn bridge_block_area(&self) -> Area
        ensures { result ≡ bridge_block_area (shape self.now).limits }
    {
        bridge_block_area(self.size().limits)
    }

    fn edge_area(&self) -> Area
        ensures { result ≡ edge_area (shape self.now).limits }
    {
        edge_area(self.size().limits)
    }

    fn word(&self, area: Area, column: u8, item: u32) -> u32
        ensures { result ≡ cell (words self.now) area column item }
    {
        word(self.lent(), area, column, item)
    }

    fn word_behind(&self, area: Area, column: u8, item: u32) -> u32
        ensures { result ≡ cell (words self.now) area column (suc item) }
    {
        word_behind(self.lent(), area, column, item)
    }
}

impl Readable for Table<'_> {
    ghost words = { λ t. t.words.now };

    ghost shape = { λ t. t.shape };

    fn lent(&self) -> &[u32] {
        self.words
    }

    fn size(&self) -> Shape {
        self.shape
    }
}

impl Readable for View<'_> {
    ghost words = { λ t. t.words.now };

    ghost shape = { λ t. t.shape };

    fn lent(&self) -> &[u32] {
        self.words
    }

    fn size(&self) -> Shape {
        self.shape
    }
}

impl Table<'_> {
    ghost use Rattle.table.specs.Same.{IsSame};

    // The words of the vertices, of which the components have the first columns.
    pub fn vertex_area(&self) -> Area
        ensures { result ≡ vertex_area self.now.shape.limits }
    {
        vertex_area(self.shape.limits)
    }

    // The words of the bridge-blocks among them.
    pub fn bridge_block_area(&self) -> Area
        ensures { result ≡ bridge_block_area self.now.shape.limits }
    {
        bridge_block_area(self.shape.limits)
    }

    // The words of the edges, of which the blocks have the first columns.
    pub fn edge_area(&self) -> Area
        ensures { result ≡ edge_area self.now.shape.limits }
    {
        edge_area(self.shape.limits)
    }

    // The word of an item in a column; 0 where the table has no such word.
    pub fn word(&self, area: Area, column: u8, item: u32) -> u32
        ensures { result ≡ cell self.now.words.now area column item }
    {
        word(self.words, area, column, item)
    }

    // The word of the item behind an item, in a column; 0 where the table has no such word.
    pub fn word_behind(&self, area: Area, column: u8, item: u32) -> u32
        ensures { result ≡ cell self.now.words.now area column (suc item) }
    {
        word_behind(self.words, area, column, item)
    }

    // The table, to be read.
    pub fn view(&self) -> View<'_>
        ensures words { result.words.now ≡ self.now.words.now }
        ensures shape { result.shape ≡ self.now.shape }
    {
        View {
            words: self.words,
            shape: self.shape,
        }
    }

    // Stores the word of an item in a column; nothing where the table has no such word.
    #[tactic(auto, unfolding(crate::specs::Inside::Layout::put))]
    pub fn set_word(&mut self, area: Area, column: u8, item: u32, value: u32)
        ensures words { self.new.words.now ≡ put self.old.words.now area column item value }
        ensures same { IsSame self.old self.new }
    {
        let at = place_of(area, column, item);
        if at < self.words.len() {
            self.words[at] = value;
        }
    }
}
