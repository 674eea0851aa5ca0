// Storing bytes in a buffer that the caller lends. The buffer goes with a place, and its tail is not lent, since promises speak of one run of stores
// in the whole buffer (`sets`): a run behind another is one run with it.
#![tactic(auto)]

ghost use Rattle.std.specs.Prelude.{◌∷◌, ◌≡◌, ◌+◌, ◌-◌, ◌*◌, ◌≤◌, length, set};
ghost use Rattle.std.proofs.lemmas.List.Edits.{sets};
ghost use Rattle.std.proofs.Math.Seq.{slice};
ghost use Rattle.commands.specs.Bytes.{two_bytes};
ghost use Rattle.storing.specs.Numbers.{number_bytes};

// Stores a byte; nothing beyond the buffer's end. (By an index, since of a `get_mut` that finds nothing the check does not see that the buffer is as
// before.)
pub fn put_byte(out: &mut [u8], at: usize, b: u8)
    ensures { out.new ≡ set out.old at b }
{
    if at < out.len() {
        out[at] = b;
    }
}

// Stores a number in two bytes, high byte first.
#[tactic(auto, unfolding(commands::specs::Bytes::two_bytes))]
pub fn put_two(out: &mut [u8], at: usize, value: u32)
    requires { at ≤ length out.old }
    ensures { out.new ≡ sets out.old at (two_bytes value) }
{
    let [high, low] = ((value % 65536) as u16).to_be_bytes();
    put_byte(out, at, high);
    put_byte(out, at + 1, low);
}

// Stores a byte, and numbers behind it, each in two bytes: a command and its operands, or the code of an answer and what it tells.
#[tactic(auto, using(crate::proofs::Sets::number_stored))]
pub fn put_numbers(out: &mut [u8], at: usize, byte: u8, numbers: &[u32])
    requires { at + 1 + 2 * length numbers.now ≤ length out.old }
    ensures { out.new ≡ sets out.old at (byte ∷ number_bytes numbers.now) }
{
    put_byte(out, at, byte);
    for (k, number) in numbers.iter().enumerate() {
        put_two(out, at + 1 + 2 * k, *number);
    }
}

// Stores the bytes that stand in `source` from one place up to another. (Both places are told, and no part is lent, as promises tell it: `slice`.
// One by one, since what is copied is mostly a command of a few bytes: with `copy_from_slice` a call of the C library's is made for each.)
#[tactic(auto, using(crate::proofs::Sets::copied_one))]
pub fn copy(source: &[u8], from: usize, to: usize, out: &mut [u8], at: usize)
    requires { (from ≤ to) × (to ≤ length source.now) × (at + (to - from) ≤ length out.old) }
    ensures { out.new ≡ sets out.old at (slice from to source.now) }
{
    for k in 0..to - from {
        put_byte(out, at + k, source[from + k]);
    }
}
