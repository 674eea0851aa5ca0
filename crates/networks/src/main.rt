// Runs the operations on a network on a few networks, and prints what they tell.
#![tactic(auto)]

ghost use Rattle.std.specs.Prelude.{◌<◌, IfSome};
ghost use Rattle.forest.specs.Promise.{IsSame};

use forest::{
    Growth, Network, NetworkView, VertexGroups, View, bridge_at, cut_at, edge_change_at,
    vertex_change_at,
};
use numbers::{Duct, Edge, GREATEST, Limits, Vertex};
use std::io;

// Prints a list in a line: a label, how many items there are, and the items.
fn say_list<F: Fn(u32) -> u32>(rt: &impl Print, label: &str, count: u32, item: F) -> io::Result<()>
    requires { F.IsAlwaysCallable item }
{
    print!(rt; "{label}{count}:")?;
    for i in 0..count {
        print!(rt; " {}", item(i))?;
    }
    println!(rt)
}

// Prints an edge that was added, its block, and the items of each kind that changed their name.
fn say_growth(rt: &impl Print, t: &View, s: Edge, growth: Growth) -> io::Result<()> {
    println!(rt; "added edge {}, block {}; changed", s.0, growth.block.0)?;
    say_list(rt, "  components ", growth.components, |i| {
        let change = vertex_change_at(t, VertexGroups::Components, i);
        change.item.0
    })?;
    say_list(rt, "  bridge-blocks ", growth.bridge_blocks, |i| {
        let change = vertex_change_at(t, VertexGroups::BridgeBlocks, i);
        change.item.0
    })?;
    say_list(rt, "  blocks ", growth.blocks, |i| {
        edge_change_at(t, i).item.0
    })
}

// Adds vertices until there is no room for more.
fn fill(n: &mut Network) {
    for _ in n.table.shape.vertices..u32::from(n.table.shape.limits.vertices) {
        n.add_vertex();
    }
}

// Adds an edge, where there is room and its ends are two vertices; prints what it changed.
fn grow(rt: &impl Print, n: &mut Network, a: Vertex, b: Vertex, d: Duct) -> io::Result<()> {
    let shape = n.table.shape;
    let room = shape.edges < u32::from(shape.limits.edges);
    if room && a.0 < shape.vertices && b.0 < shape.vertices && a != b {
        let growth = n.add_edge(a, b, d);
        say_growth(rt, &n.table.view(), Edge(shape.edges), growth)?;
    }
    Ok(())
}

// Prints a label, and the name and the size of a vertex's group.
fn say_group(
    rt: &impl Print,
    label: &str,
    n: &NetworkView,
    groups: VertexGroups,
    x: Vertex,
) -> io::Result<()>
    requires { x.0 < n.now.table.shape.vertices }
{
    let group = n.group_of(groups, x);
    print!(rt; "{label}{} of {}", group.name.0, group.size)
}

// The last vertex, where there are any.
fn last_vertex(n: &Network) -> Option<Vertex>
    ensures { IfSome result (λ x. x.0 < n.now.table.shape.vertices) }
{
    n.table.shape.vertices.checked_sub(1).map(Vertex)
}

// Marks a vertex, where it is not marked.
fn mark_one(n: &mut Network, x: Vertex)
    requires { x.0 < n.old.table.shape.vertices }
    ensures { IsSame n.old.table n.new.table }
{
    if !n.is_marked(x) {
        n.mark(x);
    }
}

// Marks the first vertex and the last, where there are any.
fn mark_ends(n: &mut Network)
    ensures { IsSame n.old.table n.new.table }
{
    if let Some(last) = last_vertex(n) {
        mark_one(n, Vertex(0));
        mark_one(n, last);
    }
}

// Prints the names of a vertex, the sizes of its groups, and how many vertices of its bridge-block are marked.
fn say_vertex(rt: &impl Print, n: &NetworkView, x: Vertex) -> io::Result<()>
    requires { x.0 < n.now.table.shape.vertices }
{
    print!(rt; "vertex {}", x.0)?;
    say_group(rt, ": component ", n, VertexGroups::Components, x)?;
    say_group(rt, ", bridge-block ", n, VertexGroups::BridgeBlocks, x)?;
    println!(rt; ", marked {}", n.marks_with(x))
}

// Prints the block of an edge, and whether it is a bridge.
fn say_edge(rt: &impl Print, n: &NetworkView, s: Edge) -> io::Result<()>
    requires { s.0 < n.now.table.shape.edges }
{
    print!(rt; "edge {}: block {}", s.0, n.block_name(s).0)?;
    if n.is_bridge(s) {
        print!(rt; ", bridge")?;
    }
    println!(rt)
}

// Prints the block that two vertices share, where they differ.
fn say_shared(rt: &impl Print, n: &NetworkView, a: Vertex, b: Vertex) -> io::Result<()>
    requires { (a.0 < n.now.table.shape.vertices) × (b.0 < n.now.table.shape.vertices) }
{
    if a == b {
        return Ok(());
    }
    match n.shared_block(a, b) {
        Some(name) => println!(rt; "shared block {}", name.0),
        None => println!(rt; "no shared block"),
    }
}

// Prints the bridges and the cut vertices between two vertices, where they share a component.
fn say_between(rt: &impl Print, n: &mut Network, a: Vertex, b: Vertex) -> io::Result<()>
    requires { (a.0 < n.old.table.shape.vertices) × (b.0 < n.old.table.shape.vertices) }
{
    if !n.same_group(VertexGroups::Components, a, b) {
        return Ok(());
    }
    let bridges = n.bridges_between(a, b);
    say_list(rt, "bridges ", bridges, |i| bridge_at(&n.table, i).0)?;
    let cuts = n.cuts_between(a, b);
    say_list(rt, "cut vertices ", cuts, |i| cut_at(&n.table, i).0)
}

// Prints all that the network tells of its vertices and edges, and of the first and the last vertex.
fn tell(rt: &impl Print, n: &mut Network) -> io::Result<()> {
    for x in 0..n.table.shape.vertices {
        say_vertex(rt, &n.view(), Vertex(x))?;
    }
    for s in 0..n.table.shape.edges {
        say_edge(rt, &n.view(), Edge(s))?;
    }
    let Some(last) = last_vertex(n) else {
        return Ok(());
    };
    println!(rt; "from vertex 0 to vertex {}", last.0)?;
    say_shared(rt, &n.view(), Vertex(0), last)?;
    say_between(rt, n, Vertex(0), last)
}

// A network of as many vertices as there is room for, the first and the last of them marked, and the edges with these ends and ducts, of which 0 is
// none: makes it in a table, where a table of 256 words is enough, and prints what it tells.
fn show(
    rt: &impl Print,
    title: &str,
    vertices: u16,
    edges: u16,
    spans: &[(u16, u16, u16)],
) -> io::Result<()> {
    let limits = Limits { vertices, edges };
    let mut words = [0u32; 256];
    if GREATEST.vertices < vertices
        || GREATEST.edges < edges
        || words.len() < forest::words_needed(limits)
    {
        return Ok(());
    }
    println!(rt; "{title}")?;
    let mut n = Network::new(&mut words, limits);
    fill(&mut n);
    mark_ends(&mut n);
    for (a, b, d) in spans {
        grow(
            rt,
            &mut n,
            Vertex(u32::from(*a)),
            Vertex(u32::from(*b)),
            Duct(*d),
        )?;
    }
    tell(rt, &mut n)
}

fn main(rt: HostRuntime) -> io::Result<()> {
    show(&rt, "One vertex", 1, 1, &[])?;
    show(&rt, "\nTwo vertices apart", 2, 1, &[])?;
    show(&rt, "\nA doubled edge", 2, 2, &[(0, 1, 1), (0, 1, 2)])?;
    let untold = [(0, 1, 0), (0, 1, 0)];
    show(&rt, "\nA doubled edge with no duct told", 2, 2, &untold)?;
    show(&rt, "\nA chain", 3, 2, &[(0, 1, 0), (1, 2, 0)])?;
    show(
        &rt,
        "\nA triangle",
        3,
        3,
        &[(0, 1, 0), (1, 2, 0), (2, 0, 0)],
    )?;
    let meeting = [(1, 2, 1), (1, 2, 2), (0, 1, 1), (0, 1, 2)];
    show(&rt, "\nTwo doubled edges that meet", 3, 4, &meeting)?;
    let equal = [
        (0, 1, 1),
        (0, 1, 2),
        (2, 3, 1),
        (2, 3, 2),
        (1, 2, 0),
        (0, 3, 0),
    ];
    show(&rt, "\nTwo doubled edges, joined twice", 4, 6, &equal)?;
    let lesser = [(0, 1, 0), (2, 3, 0), (3, 4, 0), (1, 2, 0)];
    show(&rt, "\nA larger component and a lesser name", 5, 4, &lesser)?;
    let mates = [(1, 2, 9), (0, 1, 9), (2, 1, 9), (0, 1, 9)];
    show(&rt, "\nTwo pairs of mates that meet", 3, 4, &mates)?;
    let around = [(0, 1, 4), (0, 1, 4), (1, 2, 0), (2, 0, 0), (1, 0, 4)];
    show(&rt, "\nA loop around mates", 3, 5, &around)
}
