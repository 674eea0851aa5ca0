// The result: both journals stored where it fits, and the seams behind them.
ghost use Rattle.std.specs.Prelude.{◌≡◌};
ghost use Rattle.joining.specs.Told.{Joined};
ghost use Rattle.joining.specs.Inside.Joined.{Puttable, put_journals};

use crate::alone::count_both;
use crate::raising::put_raised;
use crate::seams::{Counts, SEAM_BYTES, Seam, look_at, put_seams};
use reading::LONGEST;
use refusals::Refusal;
use storing::copy;

// The most seams whose commands a journal has room for.
const MOST: usize = LONGEST / SEAM_BYTES;

// Stores both journals, the second raised, where they and so many seams fit into a journal and into the buffer. Gives the place behind them.
#[tactic(auto, using(crate::proofs::Both::too_long))]
pub fn put_journals(
    first: &[u8],
    second: &[u8],
    out: &mut [u8],
    counts: Counts,
    seams: usize,
) -> Result<usize, Refusal>
    requires { Puttable first.now second.now }
    ensures { record { place = result; out = out.new } ≡ put_journals first.now second.now seams counts out.old }
{
    if MOST < seams {
        return Err(Refusal::LongJoin);
    }
    let front = first.len() + second.len();
    let size = front + seams * SEAM_BYTES;
    if LONGEST < size || out.len() < size {
        return Err(Refusal::LongJoin);
    }
    copy(first, 0, first.len(), out, 0);
    put_raised(second, out, first.len(), counts);
    Ok(front)
}

// Joins two journals by these seams into a buffer, over a working table, and gives the result's length.
pub fn join_into(
    first: &[u8],
    second: &[u8],
    seams: &[Seam],
    work: &mut [u32],
    out: &mut [u8],
) -> Result<u32, Refusal>
    ensures { Joined first.now second.now seams.now result work.old work.new out.old out.new }
{
    let counts = count_both(first, second, work)?;
    look_at(seams, counts)?;
    let front = put_journals(first, second, out, counts, seams.len())?;
    Ok(put_seams(seams, out, counts, front) as u32)
}
