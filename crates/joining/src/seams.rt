// The seams that the caller lends: each is read by one thin function, and looked at or stored. (The buffer goes with a
// place, as storing says.)
ghost use Rattle.std.specs.Prelude.{true, OnOk, ◌≡◌, ◌+◌, ◌*◌, ◌<◌, ◌≤◌, length};
ghost use Rattle.std.proofs.lemmas.List.Edits.{sets};
ghost use Rattle.commands.specs.Facts.{command_bytes};
ghost use Rattle.commands.specs.Join.{good_seam, seam_command};
ghost use Rattle.joining.specs.Inside.Seams.{seam_of, one_of, seam_at, look_at, seam_bytes, ducts_fit};

use crate::raising::put_order;
use numbers::{Duct, Vertex};
use reading::read::Order;
use refusals::Refusal;

// How many bytes the command for a seam has.
pub(crate) const SEAM_BYTES: usize = 7;

// A seam: a cabinet of the first network, a cabinet of the second, and the duct of the span between them.
#[repr(C)]
#[derive(Clone, Copy)]
pub struct Seam {
    pub first: u16,
    pub second: u16,
    pub duct: u16,
}

// What is known of the two networks: the first's cabinets and spans, and the second's cabinets.
#[derive(Clone, Copy)]
pub struct Counts {
    pub cabinets: u16,
    pub spans: u16,
    pub others: u16,
}

// The seam names a cabinet of each network, and a duct that is not 0.
#[tactic(auto, unfolding(commands::specs::Join::good_seam, crate::specs::Promise::seam_of))]
fn good_seam(counts: Counts, seam: Seam) -> bool
    ensures { result ≡ good_seam counts.cabinets counts.others (seam_of seam) }
{
    seam.first < counts.cabinets && seam.second < counts.others && seam.duct != 0
}

// Seam i. The lent slice is read here alone.
#[tactic(auto, unfolding(crate::specs::Inside::Seams::seam_at))]
fn seam_at(seams: &[Seam], i: usize) -> Seam
    requires { i < length seams.now }
    ensures { result ≡ seam_at seams.now i }
{
    seams[i]
}

// Looks at every seam, in order, up to one that is not good.
#[tactic(auto, using(crate::proofs::SeamSteps::looked_at_none, crate::proofs::SeamSteps::looked_at_one, crate::proofs::SeamSteps::not_good, crate::proofs::SeamSteps::looked_at_all, crate::proofs::SeamSteps::ducts_looked_at))]
pub fn look_at(seams: &[Seam], counts: Counts) -> Result<(), Refusal>
    ensures looked { result ≡ look_at counts seams.now }
    ensures ducts { OnOk result (ducts_fit seams.now ≡ true) }
{
    for i in 0..seams.len() {
        if !good_seam(counts, seam_at(seams, i)) {
            return Err(Refusal::BadSeam);
        }
    }
    Ok(())
}

// Stores the command for a seam.
#[tactic(auto, unfolding(reading::specs::Inside::Reads::meaning, reading::specs::Inside::Reads::span_command, commands::specs::Facts::command_bytes, commands::specs::Field::fields_bytes, commands::specs::Field::field_bytes, commands::specs::Facts::facts, commands::specs::Facts::operands_of, graph::specs::Network::edge_in_duct, commands::specs::Bytes::two_bytes, commands::specs::Join::seam_command, crate::specs::Inside::Seams::one_of, crate::specs::Promise::seam_of))]
fn put_seam(out: &mut [u8], at: usize, counts: Counts, seam: Seam)
    requires { at + 7 ≤ length out.old }
    ensures { out.new ≡ sets out.old at (command_bytes (seam_command (one_of counts) (seam_of seam))) }
{
    let first = Vertex(u32::from(seam.first));
    let second = Vertex(u32::from(counts.cabinets) + u32::from(seam.second));
    put_order(
        out,
        at,
        Order::AddSpan(first, second, Some(Duct(seam.duct))),
    );
}

// Stores the commands for all seams, in order, from a place on, and gives the place behind them. (A loop of its own, since joining doesn't stand on
// writing, which stores items of one width, and since a seam is read by its number alone.)
#[tactic(auto, using(crate::proofs::SeamSteps::stored_none, crate::proofs::SeamSteps::stored_one, crate::proofs::SeamSteps::stored_all))]
pub fn put_seams(seams: &[Seam], out: &mut [u8], counts: Counts, front: usize) -> usize
    requires { front + length seams.now * 7 ≤ length out.old }
    ensures place { result ≡ front + length seams.now * 7 }
    ensures stored { out.new ≡ sets out.old front (seam_bytes counts seams.now) }
{
    let mut at = front;
    for i in 0..seams.len() {
        put_seam(out, at, counts, seam_at(seams, i));
        at += SEAM_BYTES;
    }
    at
}
