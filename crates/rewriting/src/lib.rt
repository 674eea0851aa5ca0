// Rewriting a journal of the old reading, by which a span of 02 has no mate: each 02 becomes a 0B in a duct of its own. Into a buffer that the
// caller lends; nothing is stored before it is known that the whole result fits.
#![tactic(auto)]

ghost use Rattle.std.specs.Prelude.{◌∷◌, ◌++◌, ◌≡◌, ◌+◌, ◌≤◌, ◌<◌, length, get_or, drop};
ghost use Rattle.std.proofs.Math.Option.{none};
ghost use Rattle.std.proofs.lemmas.List.Edits.{sets};
ghost use Rattle.std.proofs.Math.Seq.{slice};
ghost use Rattle.commands.specs.Bytes.{two_bytes};
ghost use Rattle.commands.specs.Command.{read_command};
ghost use Rattle.commands.specs.Text.{text_from};
ghost use Rattle.reading.specs.Inside.Reads.{whole, pass_over};
ghost use Rattle.reading.specs.Inside.Places.{Readable};
ghost use Rattle.rewriting.specs.Promise.{Rewrote};
ghost use Rattle.rewriting.specs.Inside.Measures.{size_of, Measures};
ghost use Rattle.rewriting.specs.Inside.Writes.{spans_behind, rewritten_at, Writable, result_stored, Result};

use forecast::forecast_of;
use reading::LONGEST;
use reading::read::Taken;
use reading::reader::Reader;
use refusals::{Refusal, RefusedAt};
use storing::{copy, put_byte, put_two};

// The command at a place from which the journal is read to its end. (So one stands there, and the other value is never taken.)
#[tactic(auto, using(crate::proofs::Going::one_passed))]
fn head_at(reader: Reader<'_>) -> Taken<u8>
    requires { (reader.place < length reader.journal.now) × ((text_from reader.place 0 (drop reader.place reader.journal.now)).refusal ≡ none) }
    ensures { whole result.command result.width ≡ pass_over (get_or reader.entry.journal.now reader.entry.place 0) (read_command (get_or reader.entry.journal.now reader.entry.place 0) (drop (reader.entry.place + 1) reader.entry.journal.now)) }
{
    let never = Taken {
        command: 0,
        width: 0,
    };
    reader.pass().unwrap_or(never)
}

// The bytes that a command has once it is rewritten: 0B takes two more than 02.
#[tactic(auto, unfolding(crate::specs::Inside::Measures::size_of))]
fn size_of(head: Taken<u8>) -> usize
    requires { head.width ≤ 65536 }
    ensures { result ≡ size_of head.command head.width }
{
    if head.command == 2 {
        3 + head.width
    } else {
        1 + head.width
    }
}

// The spans before the command that follows one with this byte.
#[tactic(auto, unfolding(crate::specs::Inside::Writes::spans_behind))]
fn spans_behind(byte: u8, spans: u32) -> u32
    requires { spans ≤ 65536 }
    ensures { result ≡ spans_behind byte spans }
{
    if byte == 2 { spans + 1 } else { spans }
}

// The length of the result of a journal that is read to its end; or its first 0B, for which it is refused.
#[tactic(auto, using(reading::proofs::PassedAt::operands_here, crate::proofs::Going::size_at_most))]
fn measure(journal: &[u8]) -> Result<usize, RefusedAt>
    requires { Readable journal.now }
    ensures { Measures journal.now result }
{
    let mut length = 0;
    let mut reader = Reader::new(journal, 0);
    // by the reader, which is no iterator (reading/src/reader.rt)
    while reader.place < reader.journal.len() {
        let head = head_at(reader);
        if head.command == 11 {
            return Err(RefusedAt {
                refusal: Refusal::DuctTold,
                place: reader.place as u32,
            });
        }
        length += size_of(head);
        reader = reader.further(head.width);
    }
    Ok(length)
}

// Stores a 0B from a place of the buffer on: the operands of the 02 at the reader's place, and a duct behind them.
fn put_span(reader: Reader<'_>, width: usize, duct: u32, out: &mut [u8], at: usize)
    requires { (reader.place + 1 + width ≤ length reader.journal.now) × (at + (3 + width) ≤ length out.old) }
    ensures { out.new ≡ sets out.old at (0x0B ∷ slice (reader.entry.place + 1) (reader.entry.place + 1 + width) reader.entry.journal.now ++ two_bytes duct) }
{
    let from = reader.place + 1;
    put_byte(out, at, 0x0B);
    copy(reader.journal, from, from + width, out, at + 1);
    put_two(out, at + 1 + width, duct);
}

// Stores the command at the reader's place, rewritten, from a place of the buffer on; so many spans are before it. (A place, and not the buffer's
// tail: what is stored by and by is one run of stores into one buffer.)
#[tactic(auto, unfolding(crate::specs::Inside::Measures::size_of, crate::specs::Inside::Writes::rewritten_at))]
fn put_command(reader: Reader<'_>, head: Taken<u8>, spans: u32, out: &mut [u8], at: usize)
    requires { (reader.place + 1 + head.width ≤ length reader.journal.now) × (spans ≤ 65536) × (at + size_of head.command head.width ≤ length out.old) }
    ensures { out.new ≡ sets out.old at (rewritten_at reader.entry.journal.now reader.entry.place head.command head.width spans) }
{
    if head.command == 2 {
        put_span(reader, head.width, spans + 1, out, at);
    } else {
        let from = reader.place + 1;
        put_byte(out, at, reader.journal[reader.place]);
        copy(reader.journal, from, from + head.width, out, at + 1);
    }
}

// Stores the result of a journal without 0B that is read to its end, where there is room for it.
#[tactic(auto, using(reading::proofs::PassedAt::operands_here, crate::proofs::Writing::room_here, crate::proofs::Writing::written_to_end))]
fn write(journal: &[u8], out: &mut [u8])
    requires { Writable journal.now out.old }
    ensures { out.new ≡ result_stored journal.now out.old }
{
    let mut spans = 0;
    let mut at = 0;
    let mut reader = Reader::new(journal, 0);
    // by the reader, which is no iterator (reading/src/reader.rt)
    while reader.place < reader.journal.len() {
        let head = head_at(reader);
        put_command(reader, head, spans, out, at);
        spans = spans_behind(head.command, spans);
        at += size_of(head);
        reader = reader.further(head.width);
    }
}

// The result of so many bytes, of a journal without 0B that is read to its end, if it is no longer than a journal and fits into the buffer.
fn write_within(journal: &[u8], out: &mut [u8], length: usize) -> Result<u32, RefusedAt>
    requires { Result journal.now length }
    ensures { Rewrote journal.now out.old out.new result }
{
    if LONGEST < length || out.len() < length {
        return Err(Refusal::LongResult.into());
    }
    write(journal, out);
    Ok(length as u32)
}

// The rewriting of a journal into a buffer: the length of the result. What the forecast refuses is refused alike.
#[tactic(auto, using(crate::proofs::Ends::readable, crate::proofs::Ends::refused_as_foretold))]
pub fn rewrite_into(journal: &[u8], out: &mut [u8]) -> Result<u32, RefusedAt>
    ensures { Rewrote journal.now out.old out.new result }
{
    forecast_of(journal)?;
    let length = measure(journal)?;
    write_within(journal, out, length)
}
