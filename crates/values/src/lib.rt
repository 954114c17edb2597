#![tactic(auto)]
// One line of a file, read for a host that merges: 20 where it is not there, 3 to 6 of it, or its values; and these values as numbers in a row.
ghost use Rattle.std.specs.Prelude.{◌≡◌, true, ◌-◌};
ghost use Rattle.rules.specs.Plan.{run};
ghost use Rattle.rules.specs.Points.{point_at};
ghost use Rattle.rules.specs.Relations.{relation_at};
ghost use Rattle.rules.specs.OneLine.{line_stands, one_line, of_points as is_of_points, point_verdict, relation_verdict};
ghost use Rattle.lines.specs.Paper.{paper};
ghost use Rattle.lines.specs.Reading.{sheet_of};
ghost use Rattle.records.specs.Coded.{coded_point, coded_relation};
ghost use Rattle.values.specs.Reads.{Reads};

use lines::{Reading, Refusal, Verdict};
use records::point::Point;
use records::relation::Relation;
use records::{fits, point, relation};

pub mod places;

// Line `line`, from 1, is there and is no header line.
#[tactic(auto, unfolding(rules::specs::OneLine::line_stands, rules::specs::Lines::is_data, rules::specs::Sheet::most_lines))]
fn line_stands(how: Reading, f: &[u8], line: u64) -> bool
    ensures value { result ≡ line_stands (sheet_of how f.now) line }
{
    1 <= line
        && line <= 9999
        && line as usize <= lines::line_count(how, f)
        && !fits::is_header(&lines::line_of(how, f, line as usize - 1))
}

// 20 unless the line stands, then 3 to 6 of it as a line of file i.
#[tactic(auto, using(crate::proofs::Lines::one_line_is), unfolding(rules::specs::Places::pick, rules::specs::Sheet::most_lines))]
fn one_line(how: Reading, f: &[u8], i: u8, line: u64) -> Verdict
    ensures verdict { paper result ≡ run (one_line true i (sheet_of how f.now) line) }
{
    if !line_stands(how, f, line) {
        return Err(lines::unplaced(20));
    }
    let k = line as usize - 1;
    let l = lines::line_of(how, f, k);
    form::data_fits(how, f, &l, i, k)
}

// R or S.
fn of_points(i: u8) -> bool
    ensures value { result ≡ is_of_points i }
{
    1 <= i && i <= 2
}

// The values of line `line`, from 1, of a file of R or S, by its letter.
pub fn read_point(how: Reading, letter: u64, f: &[u8], line: u64) -> Result<Point, Refusal>
    ensures read { Reads result (point_verdict letter (sheet_of how f.now) line)
        (coded_point (point_at (sheet_of how f.now) (line - 1))) }
{
    let i = lines::kind_of(letter);
    if !of_points(i) {
        return Err(lines::unplaced(20));
    }
    one_line(how, f, i, line)?;
    Ok(point::point_of(&lines::line_of(how, f, line as usize - 1)))
}

// The values of line `line`, from 1, of X.
pub fn read_relation(how: Reading, f: &[u8], line: u64) -> Result<Relation, Refusal>
    ensures read { Reads result (relation_verdict (sheet_of how f.now) line)
        (coded_relation (relation_at (sheet_of how f.now) (line - 1))) }
{
    one_line(how, f, 3, line)?;
    Ok(relation::relation_of(&lines::line_of(how, f, line as usize - 1)))
}
