// Exchanges: the rings that hold one, and the share of the cabinets whose ring does.
ghost use Rattle.std.specs.Prelude.{◌≡◌, ◌<◌, ◌≤◌};
ghost use Rattle.commands.specs.Exchange.{ring_holds_exchange, with_exchange, thousandths, share_with_exchange};
ghost use Rattle.forest.specs.Promise.{state_of};

use forest::Network;
use numbers::Vertex;

// Whether a cabinet's ring holds an exchange: the ring's count of exchanges is not 0.
pub(crate) fn ring_holds_exchange(n: &Network, a: Vertex) -> bool
    requires { a.0 < n.now.table.shape.vertices }
    ensures { result ≡ ring_holds_exchange (state_of n.now.table.shape n.now.table.words.now) a.0 }
{
    0 < n.marks_with(a)
}

// How many cabinets have a ring that holds an exchange: one pass over them. It is a sum in a loop, since a filtered range that is counted takes
// twice the time.
fn with_exchange(n: &Network) -> u32
    ensures { result ≡ with_exchange (state_of n.now.table.shape n.now.table.words.now) }
{
    let mut found: u32 = 0;
    for i in 0..n.table.shape.vertices {
        let held = ring_holds_exchange(n, Vertex(i));
        found += u32::from(held);
    }
    found
}

// The share of a part in a whole, rounded to the nearest thousandth, an exact half to the even one; 0 where the whole is nothing.
fn thousandths_of(part: u32, whole: u32) -> u32
    requires { part ≤ 4096 }
    ensures { result ≡ thousandths part whole }
{
    if whole == 0 {
        return 0;
    }
    let parts = 1000 * part;
    let below = parts / whole;
    let twice_over = 2 * (parts % whole);
    let up = if twice_over == whole {
        below % 2
    } else {
        u32::from(whole < twice_over)
    };
    below + up
}

// The share of all cabinets whose ring holds an exchange.
pub(crate) fn share_with_exchange(n: &Network) -> u32
    ensures { result ≡ share_with_exchange (state_of n.now.table.shape n.now.table.words.now) }
{
    thousandths_of(with_exchange(n), n.table.shape.vertices)
}
