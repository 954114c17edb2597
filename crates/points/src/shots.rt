// 11 and 12 over S: no shot is earlier than the one before it, and none repeats an earlier one.
ghost use Rattle.std.specs.Prelude.{◌≡◌, ◌<◌};
ghost use Rattle.rules.specs.Plan.{run, up_to};
ghost use Rattle.rules.specs.Order.{rule11 as rule11_of, rule12 as rule12_of};
ghost use Rattle.lines.specs.Paper.{paper};
ghost use Rattle.lines.specs.Reading.{sheet_of};
ghost use Rattle.form.specs.Known.{Known};
ghost use Rattle.keys.specs.Held.{shot_fits};
ghost use Rattle.points.specs.Last.{stamp as stamp_of, Stamps};
ghost use Rattle.points.specs.Again.{IsAgain};

use lines::{Reading, Verdict};
use records::{fits, relation};

// Day and time of a shot as one number; none of any other line.
fn stamp(how: Reading, s: &[u8], k: usize) -> Option<u64>
    requires { k < (sheet_of how s.now).count }
    ensures value { result ≡ stamp_of (sheet_of how s.now) k }
{
    let l = lines::line_of(how, s, k);
    if fits::is_header(&l) || fits::is_marker(&l) {
        return None;
    }
    let day = u64::from(relation::number_at(&l, 72, 74));
    Some(1000000 * day + u64::from(relation::number_at(&l, 75, 80)))
}

// 11 of line k, whose stamp is t, where that of the last shot before it is `last`.
fn rule11(how: Reading, s: &[u8], k: usize, last: Option<u64>, t: Option<u64>) -> Verdict
    requires { Known 2 (sheet_of how s.now) × ((k < (sheet_of how s.now).count) × Stamps (sheet_of how s.now) k last t) }
    ensures verdict { paper result ≡ run (rule11_of (sheet_of how s.now) k) }
{
    if matches!((t, last), (Some(t), Some(last)) if t < last) {
        return lines::at_line(11, 2, k, 72);
    }
    Ok(())
}

// 12 of line k, where `again` is the first shot that repeats an earlier one.
fn rule12(how: Reading, s: &[u8], k: usize, again: usize) -> Verdict
    requires { Known 2 (sheet_of how s.now) × ((k < (sheet_of how s.now).count) × IsAgain (sheet_of how s.now) k again) }
    ensures verdict { paper result ≡ run (rule12_of (sheet_of how s.now) k) }
{
    if k == again {
        return lines::at_line(12, 2, k, 2);
    }
    Ok(())
}

// 11 and 12 over S, where `again` is the first shot that repeats an earlier one, or the number of lines.
pub fn shots_fit(how: Reading, s: &[u8], again: usize) -> Verdict
    requires { Known 2 (sheet_of how s.now) × IsAgain (sheet_of how s.now) 0 again }
    ensures verdict { paper result ≡ run (up_to (sheet_of how s.now).count (shot_fits (sheet_of how s.now))) }
{
    let mut last = None;
    for k in 0..lines::line_count(how, s) {
        let t = stamp(how, s, k);
        rule11(how, s, k, last, t)?;
        rule12(how, s, k, again)?;
        last = t.or(last);
    }
    Ok(())
}
