// Writing answers without notices.
ghost use Rattle.std.specs.Prelude.{◌∷◌, [], ℕ, ◌≡◌, ◌+◌, ◌*◌, ◌≤◌, ◌<◌, length};
ghost use Rattle.std.proofs.lemmas.List.Edits.{sets};
ghost use Rattle.commands.specs.Answer.{bool_byte};
ghost use Rattle.writing.specs.Inside.Writes.{list_bytes, option_bytes};

use crate::items::put_items;
use storing::{put_byte, put_numbers};

// An answer of a byte, and a number if there is one: 1 and the number, or zeros.
#[tactic(auto, unfolding(crate::specs::Inside::Writes::option_bytes, commands::specs::Bytes::two_bytes))]
pub(crate) fn write_option(out: &mut [u8], code: u8, value: Option<u32>)
    requires { 4 ≤ length out.old }
    ensures { out.new ≡ sets out.old 0 (option_bytes code value) }
{
    put_byte(out, 0, code);
    match value {
        Some(number) => put_numbers(out, 1, 1, &[number]),
        None => put_numbers(out, 1, 0, &[0]),
    }
}

// An answer of a byte and a flag.
#[tactic(auto, using(crate::proofs::WriteSteps::flag_byte))]
pub(crate) fn write_flag(out: &mut [u8], code: u8, flag: bool)
    ensures { out.new ≡ sets out.old 0 (code ∷ bool_byte flag ∷ []) }
{
    put_byte(out, 0, code);
    put_byte(out, 1, u8::from(flag));
}

// An answer of a byte, a count and as many numbers, which a closure gives.
pub(crate) fn write_list<F: Fn(u32) -> u32>(out: &mut [u8], code: u8, count: u32, item: F)
    requires callable { F.IsAlwaysCallable item }
    requires room { 3 + 2 * count ≤ length out.old }
    ensures { (f : ℕ → ℕ) → ((i : ℕ) → i < count → (x : ℕ) → F.post item i x → x ≡ f i) → out.new ≡ sets out.old 0 (list_bytes code f count) }
{
    put_numbers(out, 0, code, &[count]);
    put_items(out, 3, count, item);
}
