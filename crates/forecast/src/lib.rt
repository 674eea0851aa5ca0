// The forecast: a length of the answer buffer that suffices, counted in one pass over the caller's journal.
#![tactic(auto)]

ghost use Rattle.std.specs.Prelude.{◌≡◌, ◌+◌, ◌<◌, ◌≤◌, length, get_or, drop};
ghost use Rattle.naming.specs.Log.{highest_bit};
ghost use Rattle.commands.specs.Forecast.{forecast};
ghost use Rattle.forecast.specs.Promise.{foretold};
ghost use Rattle.forecast.specs.Inside.Tallies.{Few, entry_more, counted_by, length_of, PassedAt};

use reading::LONGEST;
use reading::read::{Taken, entry_of};
use reading::reader::Reader;
use refusals::{Refusal, RefusedAt};

// What is counted of the commands: those that add a cabinet and those that add a span; of the answers to the others, the bytes that do not
// depend on how many cabinets and spans there are, and the lists of spans and of cabinets.
#[derive(Clone, Copy, Default)]
pub struct Tally {
    pub cabinets: u32,
    pub spans: u32,
    pub bytes: u32,
    pub spanlists: u32,
    pub cabinetlists: u32,
}

// L(k): the place of the highest one bit of k, counted from 0; L(0) is 0.
fn highest_bit(k: u32) -> u32
    ensures { result ≡ highest_bit k }
{
    // bound before the loop, so that the loop's invariant can speak of it
    let table = HIGHEST_BITS;
    // what is left of k above the bytes passed over, and how many bits these have: the table has one byte, and k up to four
    let mut high = k;
    let mut below = 0;
    while 255 < high {
        high /= 256;
        below += 8;
    }
    below + u32::from(table[high as usize])
}

// By the byte of a command other than 01 and 02: the spans that it adds; of the answer to one that adds nothing, the bytes that do not
// depend on how many cabinets and spans there are, and the lists of spans and of cabinets.
const SPANS: u64 = 0x0000_1000_0000_0000;

const BYTES: u64 = 0x3415_0212_3345_5000;

const SPANLISTS: u64 = 0x0001_0000_0100_0000;

const CABINETLISTS: u64 = 0x0000_0000_1000_0000;

impl Tally {
    // An entry of the tables more: a span or none; so many bytes of an answer, and so many lists of spans and of cabinets behind them.
    #[tactic(auto, unfolding(crate::specs::Inside::Tallies::entry_more))]
    fn entry_more(self, spans: u8, bytes: u8, spanlists: u8, cabinetlists: u8) -> Tally
        requires { Few self × (spans ≤ 15) × (bytes ≤ 15) × (spanlists ≤ 15) × (cabinetlists ≤ 15) }
        ensures { result ≡ entry_more spans bytes spanlists cabinetlists self }
    {
        Tally {
            cabinets: self.cabinets,
            spans: self.spans + u32::from(spans),
            bytes: self.bytes + u32::from(bytes),
            spanlists: self.spanlists + u32::from(spanlists),
            cabinetlists: self.cabinetlists + u32::from(cabinetlists),
        }
    }

    // The tally with one command more, by its byte.
    #[tactic(auto, using(crate::proofs::Counting::entry_few), unfolding(crate::specs::Inside::Tallies::counted_by))]
    fn counted(self, byte: u8) -> Tally
        requires { Few self × (byte ≤ 15) }
        ensures { result ≡ counted_by byte self }
    {
        match byte {
            1 => Tally {
                cabinets: self.cabinets + 1,
                ..self
            },
            2 => Tally {
                spans: self.spans + 1,
                ..self
            },
            _ => self.entry_more(
                entry_of(SPANS, byte),
                entry_of(BYTES, byte),
                entry_of(SPANLISTS, byte),
                entry_of(CABINETLISTS, byte),
            ),
        }
    }

    // The length that suffices for the commands counted.
    #[tactic(auto, unfolding(crate::specs::Inside::Tallies::length_of, crate::specs::Inside::Tallies::plain_length, commands::specs::Forecast::length_for))]
    fn length(self) -> u32
        requires { length_of self < 4294967296 }
        ensures { result ≡ length_of self }
    {
        let c = self.cabinets;
        let s = self.spans;
        let notices = 2 * c * highest_bit(c) + s * highest_bit(s);
        let lists = 2 * s * self.spanlists + 2 * c * self.cabinetlists;
        3 * c + 7 * s + 5 * notices + (self.bytes + lists)
    }
}

// The command at the reader's place, the operands passed over; or why none can be read there, with the place.
#[tactic(auto, unfolding(reading::specs::Inside::Reads::passing_of))]
fn command_at(reader: Reader<'_>) -> Result<Taken<u8>, RefusedAt>
    requires { (reader.place < length reader.journal.now) × (reader.place ≤ 65536) }
    ensures { PassedAt (get_or reader.entry.journal.now reader.entry.place 0) (drop (reader.entry.place + 1) reader.entry.journal.now) reader.entry.place result }
{
    let place = reader.place as u32;
    reader.pass().map_err(|unread| RefusedAt {
        refusal: unread.into(),
        place,
    })
}

// A journal that is not too long, up to its end or to the first command that cannot be read.
#[tactic(auto, using(reading::proofs::PassedAt::operands_here, crate::proofs::Scanning::unread_here, crate::proofs::Scanning::byte_here_lem, crate::proofs::Scanning::length_fits, crate::proofs::Scanning::counted_to_end))]
fn scan(journal: &[u8]) -> Result<u32, RefusedAt>
    requires { length journal.now ≤ 65536 }
    ensures { foretold (length journal.now) result ≡ forecast journal.now }
{
    let mut tally = Tally::default();
    let mut reader = Reader::new(journal, 0);
    // by the reader, which is no iterator (reading/src/reader.rt)
    while reader.place < reader.journal.len() {
        let passed = command_at(reader)?;
        tally = tally.counted(passed.command);
        reader = reader.further(passed.width);
    }
    Ok(tally.length())
}

// The forecast of a journal: a length of the answer buffer that suffices, or why there is none.
#[tactic(auto, unfolding(crate::specs::Promise::foretold, commands::specs::Forecast::forecast))]
pub fn forecast_of(journal: &[u8]) -> Result<u32, RefusedAt>
    ensures { foretold (length journal.now) result ≡ forecast journal.now }
{
    if LONGEST < journal.len() {
        return Err(Refusal::LongJournal.into());
    }
    scan(journal)
}

// L(b) of each byte b, at place b: what `highest_bit` looks up. A comment names the bytes whose entries begin on its line.
const HIGHEST_BITS: [u8; 256] = [
    0, // 0
    0, // 1
    1, // 2 and 3
    1, 2, // 4 to 7
    2, 2, 2, 3, // 8 to 15
    3, 3, 3, 3, 3, 3, 3, 4, // 16 to 31
    4, 4, 4, 4, 4, 4, 4, 4, 4, 4, 4, 4, 4, 4, 4, 5, // 32 to 63
    5, 5, 5, 5, 5, 5, 5, 5, 5, 5, 5, 5, 5, 5, 5, 5, 5, 5, 5, 5, 5, 5, 5, 5, 5, 5, 5, 5, 5, 5, 5, 6, // 64 to 127
    6, 6, 6, 6, 6, 6, 6, 6, 6, 6, 6, 6, 6, 6, 6, 6, 6, 6, 6, 6, 6, 6, 6, 6, 6, 6, 6, 6, 6, 6, 6, 6,
    6, 6, 6, 6, 6, 6, 6, 6, 6, 6, 6, 6, 6, 6, 6, 6, 6, 6, 6, 6, 6, 6, 6, 6, 6, 6, 6, 6, 6, 6, 6, 7, // 128 to 255
    7, 7, 7, 7, 7, 7, 7, 7, 7, 7, 7, 7, 7, 7, 7, 7, 7, 7, 7, 7, 7, 7, 7, 7, 7, 7, 7, 7, 7, 7, 7, 7,
    7, 7, 7, 7, 7, 7, 7, 7, 7, 7, 7, 7, 7, 7, 7, 7, 7, 7, 7, 7, 7, 7, 7, 7, 7, 7, 7, 7, 7, 7, 7, 7,
    7, 7, 7, 7, 7, 7, 7, 7, 7, 7, 7, 7, 7, 7, 7, 7, 7, 7, 7, 7, 7, 7, 7, 7, 7, 7, 7, 7, 7, 7, 7, 7,
    7, 7, 7, 7, 7, 7, 7, 7, 7, 7, 7, 7, 7, 7, 7, 7, 7, 7, 7, 7, 7, 7, 7, 7, 7, 7, 7, 7, 7, 7, 7,
];
