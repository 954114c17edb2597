// What a line is, and 5 and 6 of it: the first refusal, at the line's place.
ghost use Rattle.std.specs.Prelude.{◌≡◌, true, ◌&&◌, ℕ, ◌+◌, ◌≤◌, ◌<◌};
ghost use Rattle.rules.specs.Sheet.{most_lines};
ghost use Rattle.rules.specs.Plan.{run};
ghost use Rattle.rules.specs.Text.{cols, blank as is_blank};
ghost use Rattle.rules.specs.Layout.{sps93};
ghost use Rattle.rules.specs.Lines.{is_header, is_marker};
ghost use Rattle.rules.specs.Form.{fields_fit, rule5 as rule5_of, rule6 as rule6_of};
ghost use Rattle.rules.specs.Relations.{Reach as PaperReach, reach as reach_of};
ghost use Rattle.lines.specs.Paper.{paper};
ghost use Rattle.fields.specs.Paper.{sized};
ghost use Rattle.records.specs.Coded.{row_of, rows_of, row_fits, coded_reach};

use crate::relation::Reach;
use crate::table::{Row, Table};
use crate::{cover, relation, straight, table};
use fields::bytes;
use lines::Verdict;

// H in column 1.
#[tactic(auto, unfolding(rules::specs::Lines::is_header, rules::specs::Text::col))]
pub fn is_header(l: &[u8; 80]) -> bool
    ensures value { result ≡ is_header l.now }
{
    l[0] == b'H'
}

// PM in columns 27-28.
pub fn is_marker(l: &[u8; 80]) -> bool
    ensures value { result ≡ is_marker sps93 l.now }
{
    bytes::two(l[26], l[27], b'P', b'M')
}

// Whether a field obeys its rule, or is free in a marker.
#[tactic(auto, using(crate::proofs::Rows::asks, fields::proofs::Widths::sized_is))]
fn row_fits(l: &[u8; 80], w: Row, marker: bool) -> bool
    requires { sized w.kind w.first w.last ≡ true }
    ensures value { result ≡ row_fits marker l.now (row_of w) }
{
    w.free && marker
        || w.blank && bytes::blank(l, w.first, w.last)
        || fields::fits(w.kind, l, w.first, w.last)
}

// 5 over the rows of a table, from the left: line k, from 0, of file i.
#[tactic(auto, unfolding(rules::specs::Sheet::most_lines))]
fn fields_fit(l: &[u8; 80], t: Table, marker: bool, i: u8, k: usize) -> Verdict
    requires { k ≤ most_lines }
    ensures verdict { paper result ≡ run (fields_fit i k marker l.now (rows_of t)) }
{
    for j in 0..table::row_count(t) {
        let w = table::row_at(t, j);
        if !row_fits(l, w, marker) {
            return lines::at_line(5, i, k, w.first as u8);
        }
    }
    Ok(())
}

// 5 of line k, from 0, of file i: all rows at once, and one by one only where a field is bad.
#[tactic(auto, using(crate::proofs::Five::five), unfolding(rules::specs::Places::pick, crate::specs::Coded::rows_of))]
pub fn rule5(l: &[u8; 80], i: u8, k: usize) -> Verdict
    requires { k ≤ most_lines }
    ensures verdict { paper result ≡ run (rule5_of i sps93 k l.now) }
{
    if is_header(l) {
        if straight::header_fits(l) {
            return Ok(());
        }
        return fields_fit(l, Table::Header, false, i, k);
    }
    if i == 3 {
        if straight::relation_fits(l) {
            return Ok(());
        }
        return fields_fit(l, Table::Relation, false, i, k);
    }
    let marker = is_marker(l);
    if straight::point_fits(l, i, marker) {
        return Ok(());
    }
    fields_fit(l, Table::Point(i), marker, i, k)
}

// 6 of the reach of line k of X, from 0.
#[tactic(auto, using(crate::proofs::Six::channels), unfolding(rules::specs::Places::pick, rules::specs::Sheet::most_lines, rules::specs::Cover::traces))]
pub fn counts(q: Reach, k: usize) -> Verdict
    requires { k ≤ most_lines }
    ensures verdict { (p : PaperReach) → q ≡ coded_reach p → paper result ≡ run (rule6_of sps93 k p) }
{
    if q.upto < q.from {
        return lines::at_line(6, 3, k, 39);
    }
    let n = cover::traces(q);
    let i = u64::from(q.step);
    if i == 0 || n % i != 0 {
        return lines::at_line(6, 3, k, 47);
    }
    if n / i != cover::receivers(q) {
        return lines::at_line(6, 3, k, 72);
    }
    Ok(())
}

// 6 of line k of X, from 0.
pub fn rule6(l: &[u8; 80], k: usize) -> Verdict
    requires { k ≤ most_lines }
    ensures verdict { paper result ≡ run (rule6_of sps93 k (reach_of sps93 l.now)) }
{
    counts(relation::reach_of(l), k)
}
