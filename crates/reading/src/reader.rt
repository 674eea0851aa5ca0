// The reader over the caller's journal: the caller's own bytes and a place among them. Nothing is copied. Its methods are thin: `take` and `pass`
// leave the reading to `read::take_at` and `read::pass_at`.
ghost use Rattle.std.specs.Prelude.{◌≡◌, ◌+◌, ◌<◌, ◌≤◌, length, get_or, drop};
ghost use Rattle.commands.specs.Command.{read_command};
ghost use Rattle.reading.specs.Inside.Reads.{reading_of, passing_of, pass_over};

use crate::read::{Order, Taken, Unread, pass_at, take_at};

// A loop holds the reader, and it is no iterator: a loop needs each command's place and the bytes from there on besides what is read, and what
// is known of a journal is said of a place.
#[derive(Clone, Copy)]
pub struct Reader<'a> {
    pub journal: &'a [u8],
    pub place: usize,
}

impl<'a> Reader<'a> {
    // The reader at a place of the journal.
    pub fn new(journal: &'a [u8], place: usize) -> Reader<'a>
        ensures { (result.journal ≡ journal.entry) × (result.place ≡ place) }
    {
        Reader { journal, place }
    }

    // What stands at the reader's place: a command, or why none can be read.
    pub fn take(self) -> Result<Taken<Order>, Unread>
        requires { self.place < length self.journal.now }
        ensures { reading_of result ≡ read_command (get_or self.entry.journal.now self.entry.place 0) (drop (self.entry.place + 1) self.entry.journal.now) }
    {
        take_at(self.journal, self.place)
    }

    // The same, the operands passed over: a reading of its own, since the forecast needs no operands and is faster without them.
    pub fn pass(self) -> Result<Taken<u8>, Unread>
        requires { self.place < length self.journal.now }
        ensures { passing_of result ≡ pass_over (get_or self.entry.journal.now self.entry.place 0) (read_command (get_or self.entry.journal.now self.entry.place 0) (drop (self.entry.place + 1) self.entry.journal.now)) }
    {
        pass_at(self.journal, self.place)
    }

    // The reader one command further: past the command byte and its operands' bytes.
    pub fn further(self, width: usize) -> Reader<'a>
        requires { self.place + 1 + width ≤ length self.journal.now }
        ensures { (result.journal ≡ self.entry.journal) × (result.place ≡ self.entry.place + 1 + width) }
    {
        Reader {
            journal: self.journal,
            place: self.place + 1 + width,
        }
    }
}
