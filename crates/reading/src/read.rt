// Reading a command from the journal's bytes. The command byte decides everything that follows it.
ghost use Rattle.std.specs.Prelude.{◌≡◌, ◌+◌, ◌*◌, ◌<◌, ◌≤◌, length, get_or, drop, MatchResult};
ghost use Rattle.commands.specs.Bytes.{number};
ghost use Rattle.commands.specs.Command.{form, read_command};
ghost use Rattle.reading.specs.Inside.Reads.{meaning, reading_of, refused_as, OneOperand, TwoOperands, ThreeOperands, Makes, form_width, entry_of, entry_width, passing_of, pass_over, OperandsAre, TooShort};

use numbers::{Duct, Edge, Measure, Vertex};
use refusals::Refusal;

// A command with its operands: cabinets are vertices, spans are edges. A new span lies in a duct (0B) or in none (02).
#[derive(Clone, Copy)]
pub enum Order {
    AddCabinet,
    AddSpan(Vertex, Vertex, Option<Duct>),
    DistrictName(Vertex),
    RingName(Vertex),
    SharedMesh(Vertex, Vertex),
    SoleSpans(Vertex, Vertex),
    CutCabinets(Vertex, Vertex),
    IsSole(Edge),
    MarkExchange(Vertex),
    HoldsExchange(Vertex),
    RoutesBetween(Vertex, Vertex),
    RecordLength(Edge, Measure),
    SpanLength(Edge),
    ExchangeShare,
}

// Why no command can be read at a place: the byte is no command's, or the operands are cut off by the journal's end.
#[derive(Clone, Copy, PartialEq, Eq)]
pub enum Unread {
    BadByte,
    CutOperands,
}

impl From<Unread> for Refusal {
    ghost from_gives = { λ unread refusal. refusal ≡ refused_as unread };

    fn from(unread: Unread) -> Refusal {
        match unread {
            Unread::BadByte => Refusal::BadByte,
            Unread::CutOperands => Refusal::CutOperands,
        }
    }
}

// What is read of a command, and the number of its operands' bytes.
#[derive(Clone, Copy)]
pub struct Taken<T> {
    pub command: T,
    pub width: usize,
}

// The number in two bytes, high byte first.
#[tactic(auto, unfolding(commands::specs::Bytes::number))]
fn operand(journal: &[u8], from: usize) -> u16
    requires { from + 1 < length journal.now }
    ensures { result ≡ number (get_or journal.now from 0) (get_or journal.now (from + 1) 0) }
{
    u16::from_be_bytes([journal[from], journal[from + 1]])
}

// The N operands that stand from a place on. (By their index: of an element of `array::from_fn` its contract does not tell which journal the closure
// read.)
fn operands<const N: usize>(journal: &[u8], from: usize) -> Result<[u16; N], Unread>
    requires { (from ≤ length journal.now) × (N ≤ 3) }
    ensures { MatchResult result (λ x. OperandsAre N x (drop from journal.now)) (λ e. TooShort N e (drop from journal.now)) }
{
    if journal.len() - from < 2 * N {
        return Err(Unread::CutOperands);
    }
    let mut values = [0; N];
    for k in 0..N {
        values[k] = operand(journal, from + 2 * k);
    }
    Ok(values)
}

// The commands are made by a function for each number of operands, as the match on the byte below has an arm for each.
//
// The command of 03, 04, 08, 09, 0A or 0E.
#[tactic(auto, unfolding(commands::specs::Command::forms, commands::specs::Command::form, crate::specs::Inside::Reads::made, crate::specs::Inside::Reads::meaning, crate::specs::Inside::Reads::span_command))]
fn one_operand(byte: u8, operands: [u16; 1]) -> Order
    requires { OneOperand byte }
    ensures { Makes byte 1 operands (meaning result) }
{
    let [x] = operands;
    match byte {
        3 => Order::DistrictName(Vertex(x.into())),
        4 => Order::RingName(Vertex(x.into())),
        8 => Order::IsSole(Edge(x.into())),
        9 => Order::MarkExchange(Vertex(x.into())),
        10 => Order::HoldsExchange(Vertex(x.into())),
        _ => Order::SpanLength(Edge(x.into())),
    }
}

// The command of 02, 05, 06, 07 or 0C.
#[tactic(auto, unfolding(commands::specs::Command::forms, commands::specs::Command::form, crate::specs::Inside::Reads::made, crate::specs::Inside::Reads::meaning, crate::specs::Inside::Reads::span_command))]
fn two_operands(byte: u8, operands: [u16; 2]) -> Order
    requires { TwoOperands byte }
    ensures { Makes byte 2 operands (meaning result) }
{
    let [x, y] = operands;
    let (a, b) = (Vertex(x.into()), Vertex(y.into()));
    match byte {
        2 => Order::AddSpan(a, b, None),
        5 => Order::SharedMesh(a, b),
        6 => Order::SoleSpans(a, b),
        7 => Order::CutCabinets(a, b),
        _ => Order::RoutesBetween(a, b),
    }
}

// The command of 0B or 0D.
#[tactic(auto, unfolding(commands::specs::Command::forms, commands::specs::Command::form, crate::specs::Inside::Reads::made, crate::specs::Inside::Reads::meaning, crate::specs::Inside::Reads::span_command))]
fn three_operands(byte: u8, operands: [u16; 3]) -> Order
    requires { ThreeOperands byte }
    ensures { Makes byte 3 operands (meaning result) }
{
    let [x, y, z] = operands;
    match byte {
        11 => Order::AddSpan(Vertex(x.into()), Vertex(y.into()), Some(Duct(z))),
        _ => Order::RecordLength(Edge(x.into()), Measure { day: y, metres: z }),
    }
}

// What stands at a place of the journal. (The byte decides all that follows: an arm for each number of operands.)
#[tactic(auto, using(crate::proofs::ReadSteps::read_unknown), unfolding(commands::specs::Command::forms, commands::specs::Command::form, commands::specs::Command::read_command, commands::specs::Command::read_form, crate::specs::Inside::Reads::reading_of, crate::specs::Inside::Reads::meaning))]
pub(crate) fn take_at(journal: &[u8], at: usize) -> Result<Taken<Order>, Unread>
    requires { at < length journal.now }
    ensures { reading_of result ≡ read_command (get_or journal.now at 0) (drop (at + 1) journal.now) }
{
    let byte = journal[at];
    match byte {
        1 => Ok(Taken {
            command: Order::AddCabinet,
            width: 0,
        }),
        2 | 5..=7 | 12 => {
            let read = operands(journal, at + 1)?;
            Ok(Taken {
                command: two_operands(byte, read),
                width: 4,
            })
        }
        3..=4 | 8..=10 | 14 => {
            let read = operands(journal, at + 1)?;
            Ok(Taken {
                command: one_operand(byte, read),
                width: 2,
            })
        }
        11 | 13 => {
            let read = operands(journal, at + 1)?;
            Ok(Taken {
                command: three_operands(byte, read),
                width: 6,
            })
        }
        15 => Ok(Taken {
            command: Order::ExchangeShare,
            width: 0,
        }),
        _ => Err(Unread::BadByte),
    }
}

// Entry k of a table of sixteen entries in one number: four bits each, entry 0 in the lowest. (An array of sixteen bytes is laid out on the stack anew
// for every command, and with such arrays the forecast was measured to take two thirds longer.)
#[tactic(auto, unfolding(crate::specs::Inside::Reads::entry_of))]
pub fn entry_of(table: u64, k: u8) -> u8
    requires { k ≤ 15 }
    ensures { result ≡ entry_of table k }
{
    let low = u32::from(k) * 4;
    ((table >> low) % 16) as u8
}

// The entry of a byte that is no command's.
const NONE: u8 = 15;

// The number of the operands' bytes, by the command byte, or NONE.
const WIDTHS: u64 = 0x0264_6222_4442_240F;

// What a byte is, by its entry in the table; if a command's, its operands stand from a place on.
#[tactic(auto, using(crate::proofs::ReadSteps::passed_unknown), unfolding(crate::specs::Inside::Reads::entry_width, crate::specs::Inside::Reads::passing_of))]
fn pass_over(journal: &[u8], byte: u8, from: usize, entry: u8) -> Result<Taken<u8>, Unread>
    requires { (form_width (form byte) ≡ entry_width entry) × (from ≤ length journal.now) }
    ensures { passing_of result ≡ pass_over byte (read_command byte (drop from journal.now)) }
{
    if entry == NONE {
        return Err(Unread::BadByte);
    }
    let width = entry as usize;
    if journal.len() - from < width {
        return Err(Unread::CutOperands);
    }
    Ok(Taken {
        command: byte,
        width,
    })
}

// What stands at a place of the journal, the operands passed over: of a command its byte. The commands that come in long rows have arms of
// their own, which is faster on such rows.
#[tactic(auto, using(crate::proofs::ReadSteps::read_unknown, crate::proofs::ReadSteps::widths_are), unfolding(commands::specs::Command::forms, commands::specs::Command::form, commands::specs::Command::read_command, commands::specs::Command::read_form, crate::specs::Inside::Reads::form_width, crate::specs::Inside::Reads::entry_width, crate::specs::Inside::Reads::passing_of, crate::specs::Inside::Reads::pass_over))]
pub(crate) fn pass_at(journal: &[u8], at: usize) -> Result<Taken<u8>, Unread>
    requires { at < length journal.now }
    ensures { passing_of result ≡ pass_over (get_or journal.now at 0) (read_command (get_or journal.now at 0) (drop (at + 1) journal.now)) }
{
    let byte = journal[at];
    match byte {
        1 => Ok(Taken {
            command: byte,
            width: 0,
        }),
        2 => pass_over(journal, byte, at + 1, 4),
        3..=15 => pass_over(journal, byte, at + 1, entry_of(WIDTHS, byte)),
        _ => Err(Unread::BadByte),
    }
}
