// The plant register as a program: standard input to standard output, with capacities of 256 cabinets and 512 spans.
#![tactic(auto)]

ghost use Rattle.std.proofs.Math.Option.{Option};
ghost use Rattle.std.specs.Prelude.{◌≡◌, ◌≤◌, length, IfOk};
ghost use Rattle.commands.specs.Refusal.{Refusal};
ghost use Rattle.commands.specs.Entry.{number_of};
ghost use Rattle.commands.specs.Register.{ending};
ghost use Rattle.register.specs.Output.{Put, ProgramOutput};

use reading::LONGEST;
use std::io;
use std::io::Read;

const CABINETS: u32 = 256;

const SPANS: u32 = 512;

// The words of a working table for these capacities.
const WORDS: usize = 10304;

// The most bytes that end the output.
const ENDING: usize = 6;

// Reads until the buffer is full or the input ends. Gives how many bytes were read.
fn read_input(from: &mut impl Read, buf: &mut [u8]) -> io::Result<usize>
    ensures { IfOk result (λ got. got ≤ length buf.new) }
{
    let mut done = 0;
    // how many bytes a turn adds, the read alone tells
    while done < buf.len() {
        let got = from.read(&mut buf[done..])?;
        if got == 0 {
            break;
        }
        done += got;
    }
    Ok(done)
}

// Puts what ends the output at the front of the buffer: 80, or FF, the refusal's number in one byte, and its place in four, high
// byte first. Gives how many bytes that is. (A number and no enum: the program calls the entry as C does;
// its low byte, since the clause holds for whatever number stands for a refusal.)
fn put_ending(out: &mut [u8], refusal: u32, place: u32) -> usize
    requires { 6 ≤ length out.old }
    ensures { (o : Option Refusal) → refusal ≡ number_of o → Put (ending o place) out.old out.new result }
{
    if refusal == 0 {
        out[0] = 0x80;
        return 1;
    }
    out[0] = 0xFF;
    out[1] = (refusal % 256) as u8;
    out[2..6].copy_from_slice(&place.to_be_bytes());
    6
}

// Runs the input, with an answer buffer of 65,536 bytes at the front of the output, and puts what ends the output behind the
// answers. Gives how many bytes the output has.
fn run_input(input: &[u8], output: &mut [u8]) -> usize
    requires { 65542 ≤ length output.old }
    ensures { ProgramOutput input.now output.new result }
{
    let mut work = [0u32; WORDS];
    let mut report = [0u32; 6];
    let refusal = journal::register_run(
        CABINETS,
        SPANS,
        input,
        &mut work,
        &mut output[..LONGEST],
        &mut report,
    );
    let size = report[3] as usize;
    size + put_ending(&mut output[size..], refusal, report[1])
}

// One byte more than a journal may have is enough to refuse it. Where reading fails nothing is written.
fn main(rt: HostRuntime) -> io::Result<()> {
    let mut input = [0u8; LONGEST + 1];
    let mut output = [0u8; LONGEST + ENDING];
    let Ok(got) = read_input(&mut rt.stdin(), &mut input) else {
        return Ok(());
    };
    let size = run_input(&input[..got], &mut output);
    rt.write_all(&output[..size])
}
