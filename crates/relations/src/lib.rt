#![tactic(auto)]
// 13, 14, 16 to 19 of the relation lines, in one pass over X.
ghost use Rattle.std.specs.Prelude.{◌≡◌};
ghost use Rattle.rules.specs.Plan.{run};
ghost use Rattle.lines.specs.Paper.{paper};
ghost use Rattle.lines.specs.Reading.{sheet_of};
ghost use Rattle.once.specs.Marks.{KeptAfter};
ghost use Rattle.relations.specs.Walk.{reach_fits, all_relate, Waiting, Begun};

use lines::{Reading, Verdict};

// 18 and 19 of relation line k, whose record begins in line `start`; t keeps the marks of the rows.
// Seven arguments, since a struct of them would be made for one call and taken apart in the next.
fn reach_fits(
    how: Reading,
    r: &[u8],
    o: &[u32],
    x: &[u8],
    start: usize,
    k: usize,
    t: &mut [u32],
) -> Verdict
    requires { Waiting (sheet_of how r.now) o.now (sheet_of how x.now) t.old start k }
    ensures verdict { paper result ≡ run (reach_fits (sheet_of how r.now) (sheet_of how x.now) k) }
    ensures kept { KeptAfter (paper result) (sheet_of how r.now) o.now (sheet_of how x.now) t.new start k }
{
    let e = receivers::first_row(how, r, o, x, k);
    if !receivers::all_there(how, r, o, x, k, e) {
        return lines::at_line(18, 3, k, 64);
    }
    once::covered_once(how, r, o, x, start, k, t)
}

// The relation lines, line by line. o holds the receivers in order, `apart` is the first line of a record that has stood before, t is scratch.
pub fn relations_fit(
    how: Reading,
    r: &[u8],
    o: &[u32],
    s: &[u8],
    x: &[u8],
    apart: usize,
    t: &mut [u32],
) -> Verdict
    requires { Begun (sheet_of how r.now) o.now (sheet_of how s.now) (sheet_of how x.now) apart t.old }
    ensures verdict { paper result ≡ run (all_relate (sheet_of how r.now) (sheet_of how s.now) (sheet_of how x.now)) }
{
    once::clear(t);
    let mut place = 0;
    let mut start = 0;
    for k in headers::heads(how, x)..lines::line_count(how, x) {
        let Some(j) = shots::onward(how, s, x, k, place) else {
            return shots::missing(how, s, x, k);
        };
        let on = mates::goes_on(how, x, k);
        mates::record_fits(how, x, k, apart, on)?;
        start = mates::starts(on, start, k);
        reach_fits(how, r, o, x, start, k, t)?;
        place = j;
    }
    Ok(())
}
