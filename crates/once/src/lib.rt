#![tactic(auto)]
// 19: no receiver is covered twice in a record. The first lines of a record are compared by pairs; from there on the rows that the record has
// covered are marked, with a number that no other record has.
ghost use Rattle.std.specs.Prelude.{◌≡◌, ◌+◌, ◌≤◌, ◌<◌, length};
ghost use Rattle.rules.specs.Plan.{run};
ghost use Rattle.rules.specs.Sheet.{most_lines};
ghost use Rattle.rules.specs.Relations.{reach_at};
ghost use Rattle.rules.specs.Cover.{meet};
ghost use Rattle.rules.specs.Order.{rule19};
ghost use Rattle.lines.specs.Paper.{paper};
ghost use Rattle.lines.specs.Reading.{sheet_of};
ghost use Rattle.records.specs.Coded.{coded_reach};
ghost use Rattle.form.specs.Known.{Known};
ghost use Rattle.keys.specs.Held.{RelationLine};
ghost use Rattle.once.specs.Covered.{receivers_at, apart, some_marked, Found, Lines};
ghost use Rattle.once.specs.Marks.{Below, Put, Marked, KeptAfter, Ready};

use fields::names;
use lines::{Reading, Verdict};
use records::relation::Reach;
use records::{cover, relation};

mod marks;

// So many lines of a record are compared by pairs.
const PAIRS: usize = 8;

// Takes all marks away.
pub fn clear(t: &mut [u32])
    ensures written { Below t.new 1 × (length t.new ≡ length t.old) }
{
    t.fill(0);
}

// What line k covers.
fn reach_of(how: Reading, x: &[u8], k: usize) -> Reach
    requires { k < (sheet_of how x.now).count }
    ensures value { result ≡ coded_reach (reach_at (sheet_of how x.now) k) }
{
    relation::reach_of(&lines::line_of(how, x, k))
}

// Relation lines k and j cover one receiver. The numbers are read only where the names are the same.
fn lines_meet(how: Reading, x: &[u8], k: usize, j: usize) -> bool
    requires { Known 3 (sheet_of how x.now) × (RelationLine (sheet_of how x.now) k × RelationLine (sheet_of how x.now) j) }
    ensures value { result ≡ meet (reach_at (sheet_of how x.now) k) (reach_at (sheet_of how x.now) j) }
{
    let l = lines::own_of(how, x, k);
    let m = lines::own_of(how, x, j);
    names::same_name(names::name(&l, 48), names::name(&m, 48))
        && cover::meets(reach_of(how, x, k), reach_of(how, x, j))
}

// No line from `start` on and before relation line k covers a receiver of it.
fn pairs_apart(how: Reading, x: &[u8], k: usize, start: usize) -> bool
    requires { Known 3 (sheet_of how x.now) × Lines (sheet_of how x.now) start k }
    ensures value { result ≡ apart (sheet_of how x.now) start k }
{
    (start..k).all(|j| !lines_meet(how, x, k, j))
}

// The mark of the record that begins in line `start`: no other record has it.
#[tactic(auto, unfolding(rules::specs::Sheet::most_lines))]
fn mark_of(start: usize) -> u32
    requires { start ≤ most_lines }
    ensures value { result ≡ start + 1 }
{
    start as u32 + 1
}

// How many receivers relation line k has.
fn receivers_of(how: Reading, x: &[u8], k: usize) -> usize
    requires { k < (sheet_of how x.now).count }
    ensures value { result ≡ receivers_at (sheet_of how x.now) k }
{
    cover::receivers(reach_of(how, x, k)) as usize
}

// A row of relation line k is marked with v.
fn is_covered(how: Reading, r: &[u8], o: &[u32], x: &[u8], k: usize, v: u32, t: &[u32]) -> bool
    requires { Found (sheet_of how r.now) o.now (sheet_of how x.now) t.now k }
    ensures value { result ≡ some_marked (sheet_of how r.now) o.now (sheet_of how x.now) k t.now v }
{
    let e = receivers::first_row(how, r, o, x, k);
    marks::is_marked(t, e, e + receivers_of(how, x, k), v)
}

// Marks the rows of relation line k with v.
fn mark_line(how: Reading, r: &[u8], o: &[u32], x: &[u8], k: usize, v: u32, t: &mut [u32])
    requires { Found (sheet_of how r.now) o.now (sheet_of how x.now) t.old k }
    ensures written { Put (sheet_of how r.now) o.now (sheet_of how x.now) k v t.old t.new }
{
    let e = receivers::first_row(how, r, o, x, k);
    marks::mark(t, e, e + receivers_of(how, x, k), v);
}

// Marks the rows of the relation lines from `start` on up to line k.
fn mark_lines(how: Reading, r: &[u8], o: &[u32], x: &[u8], start: usize, k: usize, t: &mut [u32])
    requires { Ready (sheet_of how r.now) o.now (sheet_of how x.now) t.old start k × Below t.old (start + 1) }
    ensures written { Marked (sheet_of how r.now) o.now (sheet_of how x.now) t.new start (k + 1) }
    ensures size { length t.new ≡ length t.old }
{
    let v = mark_of(start);
    for i in start..=k {
        mark_line(how, r, o, x, i, v, t);
    }
}

// 19 of relation line k, whose record begins in line `start`; t keeps the marks of the rows.
// Seven arguments, since a struct of them would be made for one call and taken apart in the next.
pub fn covered_once(
    how: Reading,
    r: &[u8],
    o: &[u32],
    x: &[u8],
    start: usize,
    k: usize,
    t: &mut [u32],
) -> Verdict
    requires { Ready (sheet_of how r.now) o.now (sheet_of how x.now) t.old start k }
    ensures verdict { paper result ≡ run (rule19 (sheet_of how x.now) k) }
    ensures kept { KeptAfter (paper result) (sheet_of how r.now) o.now (sheet_of how x.now) t.new start k }
{
    if k - start < PAIRS {
        if !pairs_apart(how, x, k, start) {
            return lines::at_line(19, 3, k, 64);
        }
        if k + 1 - start == PAIRS {
            mark_lines(how, r, o, x, start, k, t);
        }
        return Ok(());
    }
    let v = mark_of(start);
    if is_covered(how, r, o, x, k, v, t) {
        return lines::at_line(19, 3, k, 64);
    }
    mark_line(how, r, o, x, k, v, t);
    Ok(())
}
