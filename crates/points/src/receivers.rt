// 10 over R: each receiver is above the one before it, by line name, point and index.
ghost use Rattle.std.specs.Prelude.{◌≡◌, ◌<◌, true};
ghost use Rattle.rules.specs.Lines.{is_point};
ghost use Rattle.rules.specs.Plan.{run, up_to};
ghost use Rattle.rules.specs.Order.{rule10 as rule10_of};
ghost use Rattle.lines.specs.Paper.{paper};
ghost use Rattle.lines.specs.Reading.{sheet_of};
ghost use Rattle.form.specs.Known.{Known};
ghost use Rattle.points.specs.Last.{last_point};

use keys::Keyed;
use lines::{Reading, Verdict};

// 10 of receiver k, where `last` is the last receiver before it.
fn receiver_fits(how: Reading, r: &[u8], k: usize, last: Option<usize>) -> Verdict
    requires known { Known 1 (sheet_of how r.now) × ((k < (sheet_of how r.now).count) × (is_point (sheet_of how r.now) k ≡ true)) }
    requires before { last ≡ last_point (sheet_of how r.now) k }
    ensures verdict { paper result ≡ run (rule10_of (sheet_of how r.now) k) }
{
    let z = Keyed::points(how);
    match last {
        None => Ok(()),
        Some(j) if keys::less(z, r, j, k, false) => Ok(()),
        Some(_) => lines::at_line(10, 1, k, 2),
    }
}

// 10 over R.
pub fn receivers_fit(how: Reading, r: &[u8]) -> Verdict
    requires { Known 1 (sheet_of how r.now) }
    ensures verdict { paper result ≡ run (up_to (sheet_of how r.now).count (rule10_of (sheet_of how r.now))) }
{
    let z = Keyed::points(how);
    let mut last = None;
    for k in 0..lines::line_count(how, r) {
        if keys::takes(z, r, k) {
            receiver_fits(how, r, k, last)?;
            last = Some(k);
        }
    }
    Ok(())
}
