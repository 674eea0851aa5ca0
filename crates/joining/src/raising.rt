// The second journal's commands, raised by what the first network holds, and their bytes in a buffer that the caller lends. (The
// buffer goes with a place, as storing says.)
ghost use Rattle.std.specs.Prelude.{map, ◌≡◌, ◌+◌, ◌≤◌, ◌<◌, length};
ghost use Rattle.std.proofs.lemmas.List.Edits.{sets};
ghost use Rattle.commands.specs.Facts.{command_bytes};
ghost use Rattle.commands.specs.Text.{commands_in, journal_bytes};
ghost use Rattle.commands.specs.Join.{raise_command};
ghost use Rattle.reading.specs.Inside.Reads.{meaning};
ghost use Rattle.reading.specs.Inside.Places.{Readable};
ghost use Rattle.joining.specs.Inside.Seams.{one_of};
ghost use Rattle.joining.specs.Inside.Raising.{Fits};

use crate::seams::Counts;
use numbers::{Edge, Vertex};
use reading::read::Order;
use reading::reader::Reader;
use storing::put_numbers;

impl Counts {
    // Cabinets and spans have a function each, since their numbers are types of their own, and none is raised by the other's count.
    //
    // A cabinet of the second network among those of both.
    fn raise_vertex(self, a: Vertex) -> Vertex
        requires { a.0 < 65536 }
        ensures { result.0 ≡ self.cabinets + a.0 }
    {
        Vertex(u32::from(self.cabinets) + a.0)
    }

    // A span of the second network among those of both.
    fn raise_edge(self, s: Edge) -> Edge
        requires { s.0 < 65536 }
        ensures { result.0 ≡ self.spans + s.0 }
    {
        Edge(u32::from(self.spans) + s.0)
    }

    // A command, raised.
    #[tactic(auto, unfolding(reading::specs::Inside::Reads::meaning, reading::specs::Inside::Reads::span_command, commands::specs::Join::raise_command, commands::specs::Join::with_operands, commands::specs::Join::raise_fields, commands::specs::Join::raise_field, commands::specs::Surveys::number_in, commands::specs::Command::forms, commands::specs::Command::form, commands::specs::Command::command_byte, commands::specs::Facts::facts, commands::specs::Facts::asks, commands::specs::Facts::operands_of, graph::specs::Network::edge_between, graph::specs::Network::edge_in_duct, crate::specs::Inside::Seams::one_of))]
    fn raise(self, order: Order) -> Order
        requires { Fits order }
        ensures { meaning result ≡ raise_command (one_of self) (meaning order) }
    {
        match order {
            Order::AddCabinet => Order::AddCabinet,
            Order::AddSpan(a, b, duct) => Order::AddSpan(
                self.raise_vertex(a),
                self.raise_vertex(b),
                duct,
            ),
            Order::DistrictName(a) => Order::DistrictName(self.raise_vertex(a)),
            Order::RingName(a) => Order::RingName(self.raise_vertex(a)),
            Order::SharedMesh(a, b) => Order::SharedMesh(
                self.raise_vertex(a),
                self.raise_vertex(b),
            ),
            Order::SoleSpans(a, b) => Order::SoleSpans(self.raise_vertex(a), self.raise_vertex(b)),
            Order::CutCabinets(a, b) => Order::CutCabinets(
                self.raise_vertex(a),
                self.raise_vertex(b),
            ),
            Order::IsSole(s) => Order::IsSole(self.raise_edge(s)),
            Order::MarkExchange(a) => Order::MarkExchange(self.raise_vertex(a)),
            Order::HoldsExchange(a) => Order::HoldsExchange(self.raise_vertex(a)),
            Order::RoutesBetween(a, b) => Order::RoutesBetween(
                self.raise_vertex(a),
                self.raise_vertex(b),
            ),
            Order::RecordLength(s, measure) => Order::RecordLength(self.raise_edge(s), measure),
            Order::SpanLength(s) => Order::SpanLength(self.raise_edge(s)),
            Order::ExchangeShare => Order::ExchangeShare,
        }
    }
}

// Stores a command.
#[tactic(auto, unfolding(reading::specs::Inside::Reads::meaning, reading::specs::Inside::Reads::span_command, commands::specs::Facts::command_bytes, commands::specs::Field::fields_bytes, commands::specs::Field::field_bytes, commands::specs::Command::command_byte, commands::specs::Facts::facts, commands::specs::Facts::asks, commands::specs::Facts::operands_of, graph::specs::Network::edge_between, graph::specs::Network::edge_in_duct, commands::specs::Bytes::two_bytes))]
pub(crate) fn put_order(out: &mut [u8], at: usize, order: Order)
    requires { at + length (command_bytes (meaning order)) ≤ length out.old }
    ensures { out.new ≡ sets out.old at (command_bytes (meaning order)) }
{
    match order {
        Order::AddCabinet => put_numbers(out, at, 1, &[]),
        Order::AddSpan(a, b, None) => put_numbers(out, at, 2, &[a.0, b.0]),
        Order::AddSpan(a, b, Some(d)) => put_numbers(out, at, 11, &[a.0, b.0, u32::from(d.0)]),
        Order::DistrictName(a) => put_numbers(out, at, 3, &[a.0]),
        Order::RingName(a) => put_numbers(out, at, 4, &[a.0]),
        Order::SharedMesh(a, b) => put_numbers(out, at, 5, &[a.0, b.0]),
        Order::SoleSpans(a, b) => put_numbers(out, at, 6, &[a.0, b.0]),
        Order::CutCabinets(a, b) => put_numbers(out, at, 7, &[a.0, b.0]),
        Order::IsSole(s) => put_numbers(out, at, 8, &[s.0]),
        Order::MarkExchange(a) => put_numbers(out, at, 9, &[a.0]),
        Order::HoldsExchange(a) => put_numbers(out, at, 10, &[a.0]),
        Order::RoutesBetween(a, b) => put_numbers(out, at, 12, &[a.0, b.0]),
        Order::RecordLength(s, m) => put_numbers(
            out,
            at,
            13,
            &[s.0, u32::from(m.day), u32::from(m.metres)],
        ),
        Order::SpanLength(s) => put_numbers(out, at, 14, &[s.0]),
        Order::ExchangeShare => put_numbers(out, at, 15, &[]),
    }
}

// Stores a journal that is read to its end, its commands raised, from a place of the buffer on. (A command stands at each place, so it never returns
// before the end.)
pub(crate) fn put_raised(journal: &[u8], out: &mut [u8], at: usize, by: Counts)
    requires { Readable journal.now × (at + length journal.now ≤ length out.old) }
    ensures { out.new ≡ sets out.old at (journal_bytes (map (raise_command (one_of by)) (commands_in journal.now))) }
{
    let mut reader = Reader::new(journal, 0);
    // by the reader, which is no iterator (reading/src/reader.rt)
    while reader.place < reader.journal.len() {
        let Ok(taken) = reader.take() else {
            return;
        };
        put_order(out, at + reader.place, by.raise(taken.command));
        reader = reader.further(taken.width);
    }
}
