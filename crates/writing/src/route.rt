// Writing the answer to 0C: two routes that are written down in the table.
ghost use Rattle.std.specs.Prelude.{◌≡◌, ◌+◌, ◌*◌, ◌≤◌, length};
ghost use Rattle.std.proofs.lemmas.List.Edits.{sets};
ghost use Rattle.graph.specs.Below.{tabulate};
ghost use Rattle.commands.specs.Answer.{plain, answer_bytes};
ghost use Rattle.routes.specs.Promise.{edge_at};
ghost use Rattle.step.specs.Promise.{routes_told};
ghost use Rattle.writing.specs.Inside.Writes.{route_bytes};

use crate::items::put_items;
use forest::Readable;
use routes::{Lengths, Route, edge_at};
use storing::{put_byte, put_two};

// The count of a route's spans, and the spans, from a place on. Gives the place behind them.
fn put_route<T: Readable>(t: &T, out: &mut [u8], route: Route, count: u32, from: usize) -> usize
    requires { from + 2 + 2 * count ≤ length out.old }
    ensures place { result ≡ from + 2 + 2 * count }
    ensures stored { out.new ≡ sets out.old from (route_bytes (tabulate count (edge_at (T.shape t.now) (T.words t.now) route))) }
{
    put_two(out, from, count);
    put_items(out, from + 2, count, |i| edge_at(t, route, i).0)
}

// The answer to 0C: the one route behind the other.
#[tactic(auto, using(crate::proofs::RouteSteps::routes_written))]
pub(crate) fn write_routes<T: Readable>(t: &T, out: &mut [u8], lengths: Lengths)
    requires { 5 + 2 * (lengths.first + lengths.second) ≤ length out.old }
    ensures { out.new ≡ sets out.old 0 (answer_bytes (plain (routes_told (T.shape t.now) (T.words t.now) lengths))) }
{
    put_byte(out, 0, 0x8C);
    let second = put_route(t, out, Route::First, lengths.first, 1);
    put_route(t, out, Route::Second, lengths.second, second);
}
