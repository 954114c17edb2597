#![tactic(auto)]
// The cross-check: the form of R, S and X, the header rules, the code tables, then the rules across the files, and the counts of an accepted set.
// Two arrays of line numbers are its own, 80 KB of its stack; nothing is allocated.
ghost use Rattle.std.specs.Prelude.{◌≡◌, Ok};
ghost use Rattle.rules.specs.Plan.{run};
ghost use Rattle.lines.specs.Paper.{paper as verdict_of};
ghost use Rattle.lines.specs.Reading.{sheet_of};
ghost use Rattle.form.specs.Known.{Known};
ghost use Rattle.relations.specs.Walk.{all_relate};
ghost use Rattle.sets.specs.Paper.{paper, cross_on, forms_of, points_of, across as across_of, counts as counts_of, answered_across};
ghost use Rattle.sets.specs.Paper.{KnownSet, Headed, Met, Ordered, Arrays};

use keys::Keyed;
use lines::{Reading, Refusal, Verdict};

mod counting;

// The counts of an accepted set: receivers, shots, relation lines, traces, and how many of these are dead.
#[derive(Clone, Copy, Debug, PartialEq, Eq)]
pub struct Counts {
    pub receivers: u64,
    pub shots: u64,
    pub relations: u64,
    pub traces: u64,
    pub dead_traces: u64,
}

// The form of R, then S, then X.
#[tactic(auto, using(rules::proofs::Plans::plans))]
fn forms(how: Reading, r: &[u8], s: &[u8], x: &[u8]) -> Verdict
    ensures verdict { verdict_of result ≡ run (forms_of (sheet_of how r.now) (sheet_of how s.now) (sheet_of how x.now)) }
{
    form::file_fits(how, r, 1)?;
    form::file_fits(how, s, 2)?;
    form::file_fits(how, x, 3)
}

// 13, 14, 16 to 19: relation lines by record, receivers by name, index and number, one after the other in the same arrays.
fn relations_across(
    how: Reading,
    r: &[u8],
    s: &[u8],
    x: &[u8],
    o: &mut [u32],
    p: &mut [u32],
) -> Verdict
    requires { Ordered (sheet_of how r.now) (sheet_of how s.now) (sheet_of how x.now) × Arrays o.old p.old }
    ensures verdict { verdict_of result ≡ run (all_relate (sheet_of how r.now) (sheet_of how s.now) (sheet_of how x.now)) }
{
    let apart = order::first_repeat(Keyed::records(how), x, o, p);
    let m = order::in_order(Keyed::receivers(how), r, o, p);
    relations::relations_fit(how, r, &o[..m], s, x, apart, p)
}

// 10 over R, then 11 and 12 over S.
#[tactic(auto, using(rules::proofs::Plans::plans))]
fn points_across(how: Reading, r: &[u8], s: &[u8], o: &mut [u32], p: &mut [u32]) -> Verdict
    requires { (Known 1 (sheet_of how r.now) × Known 2 (sheet_of how s.now)) × Arrays o.old p.old }
    ensures verdict { verdict_of result ≡ run (points_of (sheet_of how r.now) (sheet_of how s.now)) }
{
    points::receivers::receivers_fit(how, r)?;
    let again = order::first_repeat(Keyed::points(how), s, o, p);
    points::shots::shots_fit(how, s, again)
}

// The rules across the files, in their order.
fn verdict_across(
    how: Reading,
    r: &[u8],
    s: &[u8],
    x: &[u8],
    o: &mut [u32],
    p: &mut [u32],
) -> Verdict
    requires { KnownSet (sheet_of how r.now) (sheet_of how s.now) (sheet_of how x.now) × Arrays o.old p.old }
    ensures verdict { verdict_of result ≡ run (across_of (sheet_of how r.now) (sheet_of how s.now) (sheet_of how x.now)) }
{
    points_across(how, r, s, o, p)?;
    relations_across(how, r, s, x, o, p)?;
    shots::shots_named(how, s, x)
}

// The counts of a set that meets the rules; the arrays are scratch.
fn counted(how: Reading, r: &[u8], s: &[u8], x: &[u8], o: &mut [u32], p: &mut [u32]) -> Counts
    requires { Met (sheet_of how r.now) (sheet_of how s.now) (sheet_of how x.now) × Arrays o.old p.old }
    ensures counts { paper (Ok result) ≡ counts_of (sheet_of how r.now) (sheet_of how s.now) (sheet_of how x.now) }
{
    let receivers = counting::points(how, r);
    let shots = counting::points(how, s);
    let relations = counting::relations(how, x);
    let traces = counting::traces(how, x);
    let dead_traces = dead::dead_traces(how, r, x, o, p);
    Counts {
        receivers,
        shots,
        relations,
        traces,
        dead_traces,
    }
}

// The answer across the files.
fn answer_across(how: Reading, r: &[u8], s: &[u8], x: &[u8]) -> Result<Counts, Refusal>
    requires { Headed (sheet_of how r.now) (sheet_of how s.now) (sheet_of how x.now) }
    ensures answer { paper result ≡ answered_across (sheet_of how r.now) (sheet_of how s.now) (sheet_of how x.now) }
{
    let mut o = [0u32; lines::MOST_LINES];
    let mut p = [0u32; lines::MOST_LINES];
    verdict_across(how, r, s, x, &mut o, &mut p)?;
    Ok(counted(how, r, s, x, &mut o, &mut p))
}

// The cross-check of three files of any length and content, read in one way. It looks at the form of each itself.
pub fn cross(how: Reading, r: &[u8], s: &[u8], x: &[u8]) -> Result<Counts, Refusal>
    ensures answer { paper result ≡ cross_on how r.now s.now x.now }
{
    forms(how, r, s, x)?;
    headers::headers_fit(how, r, s, x)?;
    codes::codes_fit(how, r, s, x)?;
    answer_across(how, r, s, x)
}
