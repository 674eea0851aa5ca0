// Writing items of one kind one behind another: an answer's spans, cabinets or notices.
ghost use Rattle.std.specs.Prelude.{List, ℕ, ◌≡◌, ◌+◌, ◌*◌, ◌≤◌, ◌<◌, length};
ghost use Rattle.std.proofs.lemmas.List.Edits.{sets};
ghost use Rattle.commands.specs.Bytes.{two_bytes};
ghost use Rattle.writing.specs.Inside.Items.{each_bytes, length_two_bytes};

use storing::put_two;

// What an answer has many of: its bytes, which are always as many, and how they are stored from a place on.
pub(crate) trait Item: Copy {
    ghost bytes: { Self → List ℕ };

    ghost WIDTH: { ℕ };

    const WIDTH: usize;

    fn put(self, out: &mut [u8], at: usize)
        requires { at + WIDTH ≤ length out.old }
        ensures { out.new ≡ sets out.old at (bytes self) };

    ghost counted: { (x : Self) → length (bytes x) ≡ WIDTH };
}

// A number in two bytes.
impl Item for u32 {
    ghost bytes = { two_bytes };

    ghost WIDTH = { 2 };

    const WIDTH: usize = 2;

    ghost counted = { length_two_bytes };

    fn put(self, out: &mut [u8], at: usize) {
        put_two(out, at, self);
    }
}

// Stores the items that a closure gives for 0, 1, .., one behind another from a place on, and gives the place behind them.
pub(crate) fn put_items<T: Item, F: Fn(u32) -> T>(
    out: &mut [u8],
    at: usize,
    count: u32,
    item: F,
) -> usize
    requires callable { F.IsAlwaysCallable item }
    requires room { at + T.WIDTH * count ≤ length out.old }
    ensures place { result ≡ at + T.WIDTH * count }
    ensures stored { (f : ℕ → List ℕ) → ((i : ℕ) → i < count → (x : T) → F.post item i x → T.bytes x ≡ f i) → out.new ≡ sets out.old at (each_bytes f count) }
{
    let mut next = at;
    for i in 0..count {
        item(i).put(out, next);
        next += T::WIDTH;
    }
    next
}
