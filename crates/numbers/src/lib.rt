// The numbers of vertices, of edges and of ducts, and lengths with their days, so that none is taken for another; and how many vertices and
// edges a table has words for, and how many it holds.
#![tactic(auto)]

ghost use Rattle.std.specs.Prelude.{MatchOption, ◌≡◌, ◌+◌, ◌<◌};

// The number of a vertex. Component and bridge-block names are vertices.
#[derive(Clone, Copy, PartialEq, Eq)]
pub struct Vertex(pub u32);

// The number of an edge. Block names are edges.
#[derive(Clone, Copy, PartialEq, Eq)]
pub struct Edge(pub u32);

impl Edge {
    // The edge that a word tells: 0 where there is none, and else one more than its number.
    pub fn in_word(word: u32) -> Option<Edge>
        ensures { MatchOption result (word ≡ 0) (λ e. (word ≡ e.0 + 1) × (e.0 < 4294967295)) }
    {
        word.checked_sub(1).map(|e| Edge(e))
    }

    // The word that tells this edge.
    pub fn to_word(self) -> u32
        requires { self.0 < 4294967295 }
        ensures { result ≡ self.0 + 1 }
    {
        self.0 + 1
    }
}

// The number of a duct; 0 where none is told.
#[derive(Clone, Copy, PartialEq, Eq)]
pub struct Duct(pub u16);

// A length in metres, and the day on which it was measured.
#[derive(Clone, Copy, PartialEq, Eq)]
pub struct Measure {
    pub day: u16,
    pub metres: u16,
}

// The most vertices and edges that a table has words for.
#[derive(Clone, Copy, PartialEq, Eq)]
pub struct Limits {
    pub vertices: u16,
    pub edges: u16,
}

// How many vertices and edges a table has words for, and how many it holds.
#[derive(Clone, Copy, PartialEq, Eq)]
pub struct Shape {
    pub limits: Limits,
    pub vertices: u32,
    pub edges: u32,
}

// The greatest limits of a table: the greatest capacities of a run.
pub const GREATEST: Limits = Limits {
    vertices: 4096,
    edges: 8192,
};
