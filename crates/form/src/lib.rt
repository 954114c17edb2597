#![tactic(auto)]
// The form of one file: the first breach of 1 to 6, in the paper's order. 1, 2, on tape 29, then line by line 3 (whole line), 4, 5, 6.
ghost use Rattle.std.specs.Prelude.{◌≡◌, true, false, ◌&&◌, ◌+◌, ◌≤◌, ◌<◌};
ghost use Rattle.rules.specs.Plan.{run, up_to};
ghost use Rattle.rules.specs.Layout.{sps93};
ghost use Rattle.rules.specs.Sheet.{most_lines};
ghost use Rattle.rules.specs.Lines.{is_header};
ghost use Rattle.rules.specs.Form.{line_fits, form as form_of};
ghost use Rattle.lines.specs.Paper.{paper};
ghost use Rattle.lines.specs.Reading.{sheet_of};
ghost use Rattle.form.specs.Paper.{answered, form_on};
ghost use Rattle.form.specs.Steps.{headers_to, letter_fits, numbers_of, fields_of};

use lines::{Reading, Verdict};
use records::fits;

// 4 of line k: H where only header lines stand above it, or the file's letter.
fn rule4(l: &[u8; 80], i: u8, k: usize, headers: bool) -> Verdict
    requires { k ≤ most_lines }
    ensures verdict { paper result ≡ run (letter_fits i k headers l.now) }
{
    if fits::is_header(l) {
        if headers {
            return Ok(());
        }
        return lines::at_line(4, i, k, 1);
    }
    if l[0] == lines::letter(i) {
        return Ok(());
    }
    lines::at_line(4, i, k, 1)
}

// 6 of line k, where it is a relation line.
fn numbers_fit(l: &[u8; 80], i: u8, k: usize) -> Verdict
    requires { k ≤ most_lines }
    ensures verdict { paper result ≡ run (numbers_of sps93 i k l.now) }
{
    if i != 3 || fits::is_header(l) {
        return Ok(());
    }
    fits::rule6(l, k)
}

// 5 of line k, then 6.
#[tactic(auto, using(rules::proofs::Plans::plans), unfolding(crate::specs::Steps::fields_of))]
pub fn fields_fit(l: &[u8; 80], i: u8, k: usize) -> Verdict
    requires { k ≤ most_lines }
    ensures verdict { paper result ≡ run (fields_of sps93 i k l.now) }
{
    fits::rule5(l, i, k)?;
    numbers_fit(l, i, k)
}

// 3 of line k, then 4, then 5 and 6; l is that line. Where it is a header line, the lines before it are all header lines if `headers` says so.
fn line_fits(how: Reading, f: &[u8], l: &[u8; 80], i: u8, k: usize, headers: bool) -> Verdict
    requires k_bound { (k < (sheet_of how f.now).count) × (k < most_lines) }
    requires l_value { (l.now ≡ (sheet_of how f.now).row k) × (is_header l.now ≡ true → headers ≡ headers_to (sheet_of how f.now) k) }
    ensures verdict { paper result ≡ run (line_fits i (sheet_of how f.now) k) }
{
    if let Some(c) = lines::stray(how, f, k) {
        return lines::at_line(3, i, k, c);
    }
    rule4(l, i, k, headers)?;
    fields_fit(l, i, k)
}

// 3 to 6 of line k, which is l and no header line, whatever stands before it.
pub fn data_fits(how: Reading, f: &[u8], l: &[u8; 80], i: u8, k: usize) -> Verdict
    requires k_bound { (k < (sheet_of how f.now).count) × (k < most_lines) }
    requires l_value { (l.now ≡ (sheet_of how f.now).row k) × (is_header l.now ≡ false) }
    ensures verdict { paper result ≡ run (line_fits i (sheet_of how f.now) k) }
{
    line_fits(how, f, l, i, k, false)
}

// 3 to 6, line by line.
fn lines_fit(how: Reading, f: &[u8], i: u8) -> Verdict
    requires { (sheet_of how f.now).count ≤ most_lines }
    ensures verdict { paper result ≡ run (up_to (sheet_of how f.now).count (line_fits i (sheet_of how f.now))) }
{
    let n = lines::line_count(how, f);
    let mut headers = true;
    for k in 0..n {
        let l = lines::line_of(how, f, k);
        line_fits(how, f, &l, i, k, headers)?;
        headers = headers && fits::is_header(&l);
    }
    Ok(())
}

// The form of file i (R 1, S 2, X 3).
pub fn file_fits(how: Reading, f: &[u8], i: u8) -> Verdict
    ensures verdict { paper result ≡ run (form_of i (sheet_of how f.now)) }
{
    lines::length_fits(how, f, i)?;
    lines_fit(how, f, i)
}

// The form check of one file. Its kind is the letter R, S or X; any other number is 20, before the rest.
pub fn form(how: Reading, kind: u64, f: &[u8]) -> Verdict
    ensures answer { answered result ≡ form_on how kind f.now }
{
    let i = lines::kind_of(kind);
    if i == 0 {
        return Err(lines::unplaced(20));
    }
    file_fits(how, f, i)
}
