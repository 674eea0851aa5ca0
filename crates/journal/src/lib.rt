// The entries that a planner calls. Of a run: the refusals before the journal is read, the run, and the report. Of the forecast: its three numbers.
// Of the forecast to the byte: the refusals before the journal is read, the run without answers, and the three numbers. Of rewriting: its three
// numbers, and the result. Of joining: its two numbers, and the result. They return numbers, 0 or a refusal's, and tell others through references,
// as C has them.
#![tactic(auto)]

ghost use Rattle.std.specs.Prelude.{OnOk, map, ◌≡◌, ◌<◌, length};
ghost use Rattle.commands.specs.Entry.{over};
ghost use Rattle.forecast.specs.Promise.{foretold};
ghost use Rattle.run.specs.Promise.{six_numbers};
ghost use Rattle.joining.specs.Promise.{seam_of};
ghost use Rattle.joining.specs.Told.{tells_number, tells_length};
ghost use Rattle.journal.specs.Inside.Start.{Starts};
ghost use Rattle.journal.specs.Inside.Report.{Reportable};
ghost use Rattle.journal.specs.Inside.Counted.{told_of, Counts};
ghost use Rattle.journal.specs.Promise.{RegisterPromise, ForecastPromise, ExactPromise, RewritePromise, JoinPromise};

use forecast::forecast_of;
use forest::clear;
use joining::{Seam, join_into};
use numbers::{GREATEST, Limits};
use reading::LONGEST;
use refusals::{Refusal, RefusedAt, number_of};
use rewriting::rewrite_into;
use run::unanswered::run_unanswered;
use run::{Progress, run, work_needed};

// How many numbers a report has.
const REPORTED: usize = 6;

// The limits of a run, or its refusal before the journal is read.
#[tactic(auto, unfolding(commands::specs::Entry::start_lines, commands::specs::Entry::short_buffers, commands::specs::Entry::good_capacities, commands::specs::Refusal::first_that_applies, run::specs::Promise::capacities_of))]
fn start(c: u32, s: u32, journal: usize, work: usize, report: usize) -> Result<Limits, Refusal>
    ensures { Starts (record { cabinets = c; spans = s }) journal work report result }
{
    if !(1..=u32::from(GREATEST.vertices)).contains(&c)
        || !(1..=u32::from(GREATEST.edges)).contains(&s)
    {
        return Err(Refusal::BadCapacity);
    }
    let limits = Limits {
        vertices: c as u16,
        edges: s as u16,
    };
    if work < work_needed(limits) || report < REPORTED {
        return Err(Refusal::ShortBuffer);
    }
    if LONGEST < journal {
        return Err(Refusal::LongJournal);
    }
    Ok(limits)
}

// The report's six numbers.
#[tactic(auto, unfolding(commands::specs::Entry::over, run::specs::Promise::six_numbers))]
fn fill_report(report: &mut [u32], p: Progress)
    requires { Reportable p report.old }
    ensures { report.new ≡ over (six_numbers p) report.old }
{
    report[..REPORTED].copy_from_slice(&[
        number_of(p.refusal),
        p.place as u32,
        p.commands,
        p.written as u32,
        p.shape.vertices,
        p.shape.edges,
    ]);
}

// Runs a journal with capacities c and s, with the caller's own working table, answer buffer and report.
pub fn register_run(
    c: u32,
    s: u32,
    journal: &[u8],
    work: &mut [u32],
    answers: &mut [u8],
    report: &mut [u32],
) -> u32
    ensures { RegisterPromise (record { cabinets = c; spans = s }) journal.now (record { work = work.old; answers = answers.old; report = report.old }) result (record { work = work.new; answers = answers.new; report = report.new }) }
{
    // the entry returns the number itself, and reports nothing where the start is refused
    let limits = match start(c, s, journal.len(), work.len(), report.len()) {
        Ok(limits) => limits,
        Err(refusal) => return refusal.into(),
    };
    let p = run(journal, work, answers, limits);
    clear(work, work_needed(limits));
    fill_report(report, p);
    number_of(p.refusal)
}

// Tells the length of a result, or a refusal: the number to return, and the length.
#[tactic(auto, unfolding(joining::specs::Told::tells_number, joining::specs::Told::tells_length))]
fn tell(told: Result<u32, Refusal>, length: &mut u32) -> u32
    ensures { (result ≡ tells_number told) × (length.new ≡ tells_length told) }
{
    match told {
        Ok(size) => {
            *length = size;
            0
        }
        Err(refusal) => {
            *length = 0;
            refusal.into()
        }
    }
}

// The same of a journal that ends at this place, and a place: the journal's end, or that of the refusal.
#[tactic(auto, unfolding(joining::specs::Told::tells_number, joining::specs::Told::tells_length, forecast::specs::Promise::foretold, commands::specs::Forecast::no_forecast))]
fn tell_at(told: Result<u32, RefusedAt>, end: usize, place: &mut u32, length: &mut u32) -> u32
    requires { OnOk told (end < 4294967296) }
    ensures { record { number = result; place = place.new; length = length.new } ≡ foretold end told }
{
    *place = match told {
        Ok(_) => end as u32,
        Err(refused) => refused.place,
    };
    tell(told.map_err(|refused| refused.refusal), length)
}

// Forecasts a length of the answer buffer that suffices for a journal, and tells a place: the journal's length, where it cannot be read, or 0 if it is
// too long.
pub fn register_forecast(journal: &[u8], place: &mut u32, length: &mut u32) -> u32
    ensures { ForecastPromise journal.now result place.new length.new }
{
    tell_at(forecast_of(journal), journal.len(), place, length)
}

// What is told of a run without answers: how many bytes its answers have, or its refusal and the place.
#[tactic(auto, unfolding(crate::specs::Inside::Counted::told_of))]
fn told_of(p: Progress) -> Result<u32, RefusedAt>
    requires { (p.place < 4294967296) × (p.written < 4294967296) }
    ensures { result ≡ told_of p }
{
    match p.refusal {
        None => Ok(p.written as u32),
        Some(refusal) => Err(RefusedAt {
            refusal,
            place: p.place as u32,
        }),
    }
}

// Runs a journal without answers, in a working table that is cleared behind it, and counts their bytes. There is no report: the start is refused as with
// one of six numbers.
fn count_answers(c: u32, s: u32, journal: &[u8], work: &mut [u32]) -> Result<u32, RefusedAt>
    ensures { Counts (record { cabinets = c; spans = s }) journal.now (foretold (length journal.now) result) work.old work.new }
{
    let limits = start(c, s, journal.len(), work.len(), REPORTED)?;
    let p = run_unanswered(journal, work, limits);
    clear(work, work_needed(limits));
    told_of(p)
}

// Forecasts to the byte how long the answers to a journal are, with capacities c and s and with the caller's own working table, and tells a place: the
// journal's length, that of the refused command, or 0 if it is refused before it is read.
pub fn register_forecast_exact(
    c: u32,
    s: u32,
    journal: &[u8],
    work: &mut [u32],
    place: &mut u32,
    length: &mut u32,
) -> u32
    ensures { ExactPromise (record { cabinets = c; spans = s }) journal.now work.old result place.new length.new work.new }
{
    tell_at(
        count_answers(c, s, journal, work),
        journal.len(),
        place,
        length,
    )
}

// Rewrites a journal of the old reading into the caller's output buffer, and tells a place, as the forecast does, and the result's length.
pub fn register_rewrite(journal: &[u8], out: &mut [u8], place: &mut u32, length: &mut u32) -> u32
    ensures { RewritePromise journal.now out.old result place.new length.new out.new }
{
    tell_at(rewrite_into(journal, out), journal.len(), place, length)
}

// Joins two journals by the caller's seams into the caller's output buffer, over its working table, and tells the result's length.
pub fn register_join(
    first: &[u8],
    second: &[u8],
    seams: &[Seam],
    work: &mut [u32],
    out: &mut [u8],
    length: &mut u32,
) -> u32
    ensures { JoinPromise first.now second.now (map seam_of seams.now) work.old out.old result length.new work.new out.new }
{
    tell(join_into(first, second, seams, work, out), length)
}
