// The two routes between two vertices of one bridge-block, searched for in the scratch words of the working table: two ways, the second of
// which may go back along steps of the first, and then, where it does, two routes along what the two ways use.
#![tactic(auto)]

ghost use Rattle.std.specs.Prelude.{true, ◌≡◌, ◌<◌};
ghost use Rattle.graph.specs.Groups.{bridge_block};
ghost use Rattle.forest.specs.Promise.{IsSame, network_in};
ghost use Rattle.routes.specs.Promise.{edge_at, RoutesFound};
ghost use Rattle.routes.specs.Inside.Frame.{column_of};
ghost use Rattle.routes.specs.Inside.Passes.{PassWritten, PassTaken};

pub mod lists;
pub mod search;
pub mod uses;
pub mod walk;

use crate::lists::build_lists;
use crate::search::{Allowance, search};
use crate::walk::{take_way, takes_back, write_way};
use forest::{Network, Readable, vertex_scratch};
use numbers::{Edge, Vertex};

// The vertices' scratch words: the first entry of a vertex's list of edges, its step towards the goal, the vertices in the order in which they
// were reached, and the first route. The second route stands where the vertices in order stood. They are numbers and no enum, since the
// forest counts a vertex's scratch words.
pub(crate) const HEAD: u8 = 0;

pub(crate) const NEXT: u8 = 1;

pub(crate) const ORDER: u8 = 2;

pub(crate) const FIRST: u8 = 3;

// Which of the two routes. It is told by a value, and not by a closure, since it says where a route stands, and not what is to be done.
#[derive(Clone, Copy, PartialEq, Eq)]
pub enum Route {
    First,
    Second,
}

impl Route {
    // The column in which it is written down.
    pub(crate) fn column(self) -> u8
        ensures { result ≡ column_of self }
    {
        match self {
            Route::First => FIRST,
            Route::Second => ORDER,
        }
    }
}

// How many edges each of them has.
#[derive(Clone, Copy)]
pub struct Lengths {
    pub first: u32,
    pub second: u32,
}

// Searches for a way from a to b, and writes it down as a route; gives its length.
fn find_way(n: &mut Network, allowance: Allowance, route: Route, a: Vertex, b: Vertex) -> u32
    requires { b.0 < n.old.table.shape.vertices }
    ensures written { PassWritten n.old.table.shape allowance (column_of route) a.0 b.0 n.old.table.words.now n.new.table.words.now result }
    ensures same { IsSame n.old.table n.new.table }
{
    search(n, allowance, a, b);
    write_way(n, route, a, b)
}

// The same, and the way is taken: its edges that were not used are used, and those that were are so no longer.
fn find_and_take(n: &mut Network, allowance: Allowance, a: Vertex, b: Vertex) -> u32
    requires { b.0 < n.old.table.shape.vertices }
    ensures taken { PassTaken n.old.table.shape allowance a.0 b.0 n.old.table.words.now n.new.table.words.now result }
    ensures same { IsSame n.old.table n.new.table }
{
    let length = find_way(n, allowance, Route::First, a, b);
    take_way(n, Route::First, a, length);
    length
}

// Writes down two routes between two vertices of one bridge-block; gives their lengths. They are two ways, unless the second goes back along
// steps of the first: then they are searched for along what the two use.
pub fn find(n: &mut Network, a: Vertex, b: Vertex) -> Lengths
    requires { (b.0 < n.old.table.shape.vertices) × (bridge_block (network_in n.old.table.shape n.old.table.words.now) a.0 b.0 ≡ true) }
    ensures found { RoutesFound n.old.table.shape a.0 b.0 n.old.table.words.now n.new.table.words.now result }
    ensures same { IsSame n.old.table n.new.table }
{
    build_lists(n);
    let one = find_and_take(n, Allowance::OneMore, a, b);
    let two = find_way(n, Allowance::OneMore, Route::Second, a, b);
    if !takes_back(&n.table, Route::Second, two) {
        return Lengths {
            first: one,
            second: two,
        };
    }
    take_way(n, Route::Second, a, two);
    let first = find_and_take(n, Allowance::AlongUsed, a, b);
    let second = find_way(n, Allowance::AlongUsed, Route::Second, a, b);
    Lengths { first, second }
}

// Edge i of a route that is written down.
#[tactic(auto, unfolding(crate::specs::Promise::edge_at))]
pub fn edge_at<T: Readable>(t: &T, route: Route, i: u32) -> Edge
    ensures { result.0 ≡ edge_at (T.shape t.now) (T.words t.now) route i }
{
    Edge(vertex_scratch(t, route.column(), Vertex(i)))
}
