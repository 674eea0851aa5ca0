// The duct of an edge, and the survey that is kept of it: the lower half of one word is the duct, its upper half tells whether a survey is
// kept, and its day and its metres are another word.
ghost use Rattle.std.specs.Prelude.{◌≡◌};
ghost use Rattle.table.specs.Same.{IsSame};
ghost use Rattle.forest.specs.Inside.Words.{duct_of};
ghost use Rattle.forest.specs.Inside.Surveys.{is_surveyed, is_replaced, survey_stored, survey_table, length_in};

use numbers::{Edge, Measure};
use table::words::{DUCT, Readable, SURVEY, Table};

// The duct of an edge.
pub(crate) fn duct_of<T: Readable>(t: &T, s: Edge) -> u32
    ensures { result ≡ duct_of (T.words t.now) (T.shape t.now).limits s.0 }
{
    t.word(t.edge_area(), DUCT, s.0) % 65536
}

// Whether a survey of an edge is kept.
#[tactic(auto, unfolding(crate::specs::Inside::Surveys::is_surveyed))]
fn is_surveyed<T: Readable>(t: &T, s: Edge) -> bool
    ensures { result ≡ is_surveyed (T.words t.now) (T.shape t.now).limits s.0 }
{
    65536 <= t.word(t.edge_area(), DUCT, s.0)
}

// Whether a survey of this day is to be kept instead: none is kept, or that of an earlier day.
#[tactic(auto, unfolding(crate::specs::Inside::Surveys::is_replaced))]
fn is_replaced(t: &Table, s: Edge, day: u16) -> bool
    ensures { result ≡ is_replaced t.now.words.now t.now.shape.limits s.0 day }
{
    !is_surveyed(t, s) || t.word(t.edge_area(), SURVEY, s.0) / 65536 < u32::from(day)
}

// Keeps a survey of an edge.
#[tactic(auto, unfolding(crate::specs::Inside::Surveys::survey_stored))]
fn store_survey(t: &mut Table, s: Edge, measure: Measure)
    ensures words { t.new.words.now ≡ survey_stored t.old.words.now t.old.shape.limits s.0 measure.day measure.metres }
    ensures same { IsSame t.old t.new }
{
    let kept = u32::from(measure.day) * 65536 + u32::from(measure.metres);
    let flagged = 65536 + duct_of(t, s);
    t.set_word(t.edge_area(), SURVEY, s.0, kept);
    t.set_word(t.edge_area(), DUCT, s.0, flagged);
}

// Keeps a survey of an edge if it replaces what is kept.
#[tactic(auto, unfolding(crate::specs::Inside::Surveys::survey_table))]
pub(crate) fn keep_survey(t: &mut Table, s: Edge, measure: Measure)
    ensures words { t.new.words.now ≡ survey_table t.old.words.now t.old.shape.limits s.0 measure.day measure.metres }
    ensures same { IsSame t.old t.new }
{
    if is_replaced(t, s, measure.day) {
        store_survey(t, s, measure);
    }
}

// The metres of the survey that is kept of an edge.
#[tactic(auto, unfolding(crate::specs::Inside::Surveys::length_in))]
pub(crate) fn kept_length<T: Readable>(t: &T, s: Edge) -> Option<u32>
    ensures { result ≡ length_in (T.words t.now) (T.shape t.now).limits s.0 }
{
    if is_surveyed(t, s) {
        return Some(t.word(t.edge_area(), SURVEY, s.0) % 65536);
    }
    None
}
