#![tactic(auto, using(crate::proofs::Used::used), unfolding(keys::specs::Compare::same_key, rules::specs::Places::pick, rules::specs::Sheet::most_lines))]
// Relation lines of one tape and record: they stand together, with one shot, increment and instrument (16), and their channels rise (17).
ghost use Rattle.std.specs.Prelude.{◌≡◌, true, ◌<◌};
ghost use Rattle.rules.specs.Places.{pick};
ghost use Rattle.rules.specs.Plan.{run, ◌before◌};
ghost use Rattle.rules.specs.Relations.{relation_at};
ghost use Rattle.rules.specs.Order.{same_shot, rule16, rule17};
ghost use Rattle.lines.specs.Paper.{paper};
ghost use Rattle.lines.specs.Reading.{sheet_of};
ghost use Rattle.form.specs.Known.{Known};
ghost use Rattle.keys.specs.Held.{RelationLine};
ghost use Rattle.mates.specs.Records.{Standing, goes_on, same_set};

use fields::figures;
use keys::Keyed;
use lines::{Reading, Verdict};

// The line just before relation line k is of the same tape and record.
pub fn goes_on(how: Reading, x: &[u8], k: usize) -> bool
    requires { Known 3 (sheet_of how x.now) × RelationLine (sheet_of how x.now) k }
    ensures value { result ≡ goes_on (sheet_of how x.now) k }
{
    let z = Keyed::records(how);
    k != 0 && keys::takes(z, x, k - 1) && keys::same(z, x, k - 1, k)
}

// The first line of relation line k's record, where that of the line before is `start`, and `on` says whether the record goes on.
pub fn starts(on: bool, start: usize, k: usize) -> usize
    ensures value { result ≡ pick on start k }
{
    if on { start } else { k }
}

// Relation lines k and j have one record increment and instrument.
fn same_set(how: Reading, x: &[u8], k: usize, j: usize) -> bool
    requires { Known 3 (sheet_of how x.now) × (RelationLine (sheet_of how x.now) k × RelationLine (sheet_of how x.now) j) }
    ensures value { result ≡ same_set (relation_at (sheet_of how x.now) k) (relation_at (sheet_of how x.now) j) }
{
    let l = lines::own_of(how, x, k);
    let m = lines::own_of(how, x, j);
    figures::index(&l, 12) == figures::index(&m, 12)
        && figures::index(&l, 13) == figures::index(&m, 13)
}

// Relation lines k and j are of one shot, record increment and instrument.
fn same_shot(how: Reading, x: &[u8], k: usize, j: usize) -> bool
    requires { Known 3 (sheet_of how x.now) × (RelationLine (sheet_of how x.now) k × RelationLine (sheet_of how x.now) j) }
    ensures value { result ≡ same_shot (relation_at (sheet_of how x.now) k) (relation_at (sheet_of how x.now) j) }
{
    keys::shot_key(how, x, k) == keys::shot_key(how, x, j) && same_set(how, x, k, j)
}

// 17 of relation line k, whose record goes on.
fn rises(how: Reading, x: &[u8], k: usize) -> Verdict
    requires { Known 3 (sheet_of how x.now) × (RelationLine (sheet_of how x.now) k × (goes_on (sheet_of how x.now) k ≡ true)) }
    ensures verdict { paper result ≡ run (rule17 (sheet_of how x.now) k) }
{
    let l = lines::own_of(how, x, k);
    let m = lines::own_of(how, x, k - 1);
    if figures::number(&m, 43, 46) < figures::number(&l, 39, 42) {
        return Ok(());
    }
    lines::at_line(17, 3, k, 39)
}

// 16 and 17 of relation line k: `apart` is the first line whose record stands apart, `on` says whether its record goes on.
pub fn record_fits(how: Reading, x: &[u8], k: usize, apart: usize, on: bool) -> Verdict
    requires { Known 3 (sheet_of how x.now) × (RelationLine (sheet_of how x.now) k × Standing (sheet_of how x.now) k apart on) }
    ensures verdict { paper result ≡ run (rule16 (sheet_of how x.now) k before rule17 (sheet_of how x.now) k) }
{
    if on {
        if same_shot(how, x, k, k - 1) {
            return rises(how, x, k);
        }
    } else if k != apart {
        return Ok(());
    }
    lines::at_line(16, 3, k, 2)
}
