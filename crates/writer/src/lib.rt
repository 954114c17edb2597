#![tactic(auto)]
// A point or a relation as the 82 bytes of a line of the disc form, at the start of a lent slice. The line is made in an array of the
// call, field by field of the table that reading goes by, and put over last: a refusal writes nothing.
ghost use Rattle.std.specs.Prelude.{◌≡◌, ℕ, Bool, List, length, get_or};
ghost use Rattle.rules.specs.Plan.{run};
ghost use Rattle.rules.specs.Layout.{sps93};
ghost use Rattle.rules.specs.Lines.{kind_of, letter as letter_of};
ghost use Rattle.rules.specs.Points.{state_of};
ghost use Rattle.rules.specs.Rows.{point_rows};
ghost use Rattle.rules.specs.Writer.{same_state, point_goes, point_writes, relation_writes, line_of, point_line, relation_line, writes, into};
ghost use Rattle.rules.specs.Writer.{counted as counted_of};
ghost use Rattle.lines.specs.Paper.{paper};
ghost use Rattle.writer.specs.Coded.{text_of, state_in, point_of, reach_of, relation_of, values_of};
ghost use Rattle.writer.specs.Made.{made};
ghost use Rattle.writer.specs.Given.{point_takes, point_text, relation_takes, relation_text};

use crate::values::Value;
use lines::Verdict;
use records::point::Point;
use records::relation::{Reach, Relation};
use records::state::State;
use records::table::Table;
use records::{fits, state};

mod allowed;
mod line;
mod numbers;
mod rows;
mod spell;
mod values;

// The state is that of the code, and no marker's.
#[tactic(auto, using(crate::proofs::Written::code_state))]
fn agrees(code: u64, s: State) -> bool
    ensures value { result ≡ same_state (state_of (text_of 2 0 code)) (state_in s) }
{
    s != State::Marker && state::state_of(code) == s
}

// 6 of a relation's values.
fn counted(q: Reach) -> bool
    ensures value { result ≡ counted_of (reach_of q) }
{
    fits::counts(q, 0).is_ok()
}

// The line of a point's values, where the letter is R or S, the state that of the code, and they go into the fields.
#[tactic(auto, using(crate::proofs::Tables::ends), unfolding(records::specs::Coded::rows_of))]
fn values_line(letter: u64, code: u64, s: State, vs: [Option<Value>; 14]) -> Option<[u8; 82]>
    ensures value { result ≡ made (point_goes letter (text_of 2 0 code) (state_in s) (values_of (point_rows sps93 (kind_of letter)) vs))
        (line_of (letter_of (kind_of letter)) (point_rows sps93 (kind_of letter)) (values_of (point_rows sps93 (kind_of letter)) vs)) }
{
    let i = lines::kind_of(letter);
    if 1 <= i && i <= 2 && agrees(code, s) {
        line::line_of(lines::letter(i), Table::Point(i), vs)
    } else {
        None
    }
}

// The line of a point.
#[tactic(auto, unfolding(rules::specs::Writer::point_writes, crate::specs::Coded::point_of))]
fn point_line(letter: u64, p: Point) -> Option<[u8; 82]>
    ensures value { result ≡ made (point_writes letter (point_of p)) (point_line (kind_of letter) (point_of p)) }
{
    values_line(letter, p.code, p.state, values::point_values(p))
}

// The line of a point of sixteen numbers.
#[tactic(auto, using(crate::proofs::Given::points))]
fn point_numbers_line(letter: u64, v: [u64; 16]) -> Option<[u8; 82]>
    ensures value { result ≡ made (point_takes letter (λ k. get_or v k 0)) (point_text letter (λ k. get_or v k 0)) }
{
    values_line(letter, v[4], numbers::state_of(v[5]), numbers::point(v))
}

// The line of a relation, where its values go into the fields and keep 6.
#[tactic(auto, using(crate::proofs::Written::relations), unfolding(records::specs::Coded::rows_of))]
fn relation_line(q: Relation) -> Option<[u8; 82]>
    ensures value { result ≡ made (relation_writes (relation_of q)) (relation_line (relation_of q)) }
{
    if counted(q.reach) {
        line::line_of(b'X', Table::Relation, values::relation_values(q))
    } else {
        None
    }
}

// The line of a relation of sixteen numbers. 6 is asked first, and reads a number wider than its 32 bits as 0: the field takes none such.
#[tactic(auto, using(crate::proofs::Tables::ends), unfolding(records::specs::Coded::rows_of))]
fn relation_numbers_line(v: [u64; 16]) -> Option<[u8; 82]>
    ensures value { result ≡ made (relation_takes (λ k. get_or v k 0)) (relation_text (λ k. get_or v k 0)) }
{
    if counted(numbers::reach(v)) {
        line::line_of(b'X', Table::Relation, numbers::relation(v))
    } else {
        None
    }
}

// 22, then 23, then the line at the start of out.
fn place(line: Option<[u8; 82]>, out: &mut [u8]) -> Verdict
    ensures verdict { (ok : Bool) (l : List ℕ) → line ≡ made ok l → paper result ≡ run (writes ok (length out.old)) }
    ensures written { (ok : Bool) (l : List ℕ) → line ≡ made ok l → out.new ≡ into (paper result) l out.old }
{
    match line {
        None => Err(lines::unplaced(22)),
        Some(_) if out.len() < 82 => Err(lines::unplaced(23)),
        Some(line) => {
            texts::add(&line, out, 0);
            Ok(())
        }
    }
}

// Writes a point of the file of that letter, R or S.
pub fn write_point(letter: u64, p: Point, out: &mut [u8]) -> Verdict
    ensures verdict { paper result ≡ run (writes (point_writes letter (point_of p)) (length out.old)) }
    ensures written { out.new ≡ into (paper result) (point_line (kind_of letter) (point_of p)) out.old }
{
    place(point_line(letter, p), out)
}

// Writes a relation.
pub fn write_relation(q: Relation, out: &mut [u8]) -> Verdict
    ensures verdict { paper result ≡ run (writes (relation_writes (relation_of q)) (length out.old)) }
    ensures written { out.new ≡ into (paper result) (relation_line (relation_of q)) out.old }
{
    place(relation_line(q), out)
}

// Writes a point of sixteen numbers, as a C host has them.
pub fn write_point_numbers(letter: u64, v: [u64; 16], out: &mut [u8]) -> Verdict
    ensures verdict { paper result ≡ run (writes (point_takes letter (λ k. get_or v k 0)) (length out.old)) }
    ensures written { out.new ≡ into (paper result) (point_text letter (λ k. get_or v k 0)) out.old }
{
    place(point_numbers_line(letter, v), out)
}

// Writes a relation of sixteen numbers.
pub fn write_relation_numbers(v: [u64; 16], out: &mut [u8]) -> Verdict
    ensures verdict { paper result ≡ run (writes (relation_takes (λ k. get_or v k 0)) (length out.old)) }
    ensures written { out.new ≡ into (paper result) (relation_text (λ k. get_or v k 0)) out.old }
{
    place(relation_numbers_line(v), out)
}
