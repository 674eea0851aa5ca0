// The entries of journal under the names that C calls, as include/register.h declares them.
#![tactic(auto)]

ghost use Rattle.std.specs.Prelude.{map};
ghost use Rattle.joining.specs.Promise.{seam_of};
ghost use Rattle.journal.specs.Promise.{RegisterPromise, ForecastPromise, ExactPromise, RewritePromise, JoinPromise};

use joining::Seam;

// Runs a journal with capacities c and s, with the caller's own working table, answer buffer and report.
#[unsafe(no_mangle)]
pub extern "C" fn register_run(
    c: u32,
    s: u32,
    journal: &[u8],
    work: &mut [u32],
    answers: &mut [u8],
    report: &mut [u32],
) -> u32
    ensures { RegisterPromise (record { cabinets = c; spans = s }) journal.now (record { work = work.old; answers = answers.old; report = report.old }) result (record { work = work.new; answers = answers.new; report = report.new }) }
{
    journal::register_run(c, s, journal, work, answers, report)
}

// Forecasts a length of the answer buffer that suffices for a journal, and tells a place: the journal's length, where it cannot be read, or 0 if it is
// too long.
#[unsafe(no_mangle)]
pub extern "C" fn register_forecast(journal: &[u8], place: &mut u32, length: &mut u32) -> u32
    ensures { ForecastPromise journal.now result place.new length.new }
{
    journal::register_forecast(journal, place, length)
}

// Forecasts to the byte how long the answers to a journal are, with capacities c and s and with the caller's own working table, and tells a place: the
// journal's length, that of the refused command, or 0 if it is refused before it is read.
#[unsafe(no_mangle)]
pub extern "C" fn register_forecast_exact(
    c: u32,
    s: u32,
    journal: &[u8],
    work: &mut [u32],
    place: &mut u32,
    length: &mut u32,
) -> u32
    ensures { ExactPromise (record { cabinets = c; spans = s }) journal.now work.old result place.new length.new work.new }
{
    journal::register_forecast_exact(c, s, journal, work, place, length)
}

// Rewrites a journal of the old reading into the caller's output buffer, and tells a place, as the forecast does, and the result's length.
#[unsafe(no_mangle)]
pub extern "C" fn register_rewrite(
    journal: &[u8],
    out: &mut [u8],
    place: &mut u32,
    length: &mut u32,
) -> u32
    ensures { RewritePromise journal.now out.old result place.new length.new out.new }
{
    journal::register_rewrite(journal, out, place, length)
}

// Joins two journals by the caller's seams into the caller's output buffer, over its working table, and tells the result's length.
#[unsafe(no_mangle)]
pub extern "C" fn register_join(
    first: &[u8],
    second: &[u8],
    seams: &[Seam],
    work: &mut [u32],
    out: &mut [u8],
    length: &mut u32,
) -> u32
    ensures { JoinPromise first.now second.now (map seam_of seams.now) work.old out.old result length.new work.new out.new }
{
    journal::register_join(first, second, seams, work, out, length)
}
