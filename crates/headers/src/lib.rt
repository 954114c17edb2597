#![tactic(auto)]
// The headers: 7 and 8 of R, then 9 of S and of X against R, each the first breach in the paper's order.
ghost use Rattle.std.specs.Prelude.{◌≡◌, ◌≤◌, ◌<◌, length};
ghost use Rattle.rules.specs.Plan.{run, up_to};
ghost use Rattle.rules.specs.Layout.{sps93};
ghost use Rattle.rules.specs.Sheet.{most_lines};
ghost use Rattle.rules.specs.Lines.{heads as heads_of};
ghost use Rattle.rules.specs.Headers.{is_type, same_columns, rule7 as rule7_of, rule8 as rule8_of, rule9 as rule9_of};
ghost use Rattle.lines.specs.Paper.{paper};
ghost use Rattle.lines.specs.Reading.{sheet_of};
ghost use Rattle.headers.specs.Steps.{has_type, named, same_lines, headers_fit};

use fields::bytes;
use lines::{Reading, Verdict};
use records::fits;

mod text;

// How many header lines stand first.
#[tactic(auto, using(crate::proofs::Laws::header_walk), unfolding(rules::specs::Lines::heads))]
pub fn heads(how: Reading, f: &[u8]) -> usize
    ensures value { result ≡ heads_of (sheet_of how f.now) }
{
    let n = lines::line_count(how, f);
    for k in 0..n {
        let l = lines::line_of(how, f, k);
        if !fits::is_header(&l) {
            return k;
        }
    }
    n
}

// A header line of type t: its two digits, and a blank column after them.
#[tactic(auto, using(crate::proofs::Laws::two_and_blank))]
fn is_type(l: &[u8; 80], t: u8) -> bool
    requires { t < 100 }
    ensures value { result ≡ is_type sps93 t l.now }
{
    bytes::two(l[1], l[2], 48 + t / 10, 48 + t % 10) && bytes::blank(l, 4, 4)
}

// One of the first n lines is of type t.
fn has_type(how: Reading, f: &[u8], n: usize, t: u8) -> bool
    requires { (n ≤ (sheet_of how f.now).count) × (t < 100) }
    ensures value { result ≡ has_type (sheet_of how f.now) n t }
{
    (0..n).any(|k| is_type(&lines::line_of(how, f, k), t))
}

// 7: R's header has each of the types 00 to 20.
#[tactic(auto, using(crate::proofs::Laws::seven), unfolding(rules::specs::Sheet::most_lines))]
pub fn rule7(how: Reading, r: &[u8]) -> Verdict
    requires { (sheet_of how r.now).count ≤ most_lines }
    ensures verdict { paper result ≡ run (rule7_of (sheet_of how r.now)) }
{
    let n = heads(how, r);
    for t in 0..21 {
        if !has_type(how, r, n, t) {
            return lines::at_line(7, 1, n, 0);
        }
    }
    Ok(())
}

// 8 of line k.
#[tactic(auto, using(crate::proofs::Laws::eight), unfolding(rules::specs::Sheet::most_lines))]
fn line_names(l: &[u8; 80], k: usize) -> Verdict
    requires { k < most_lines }
    ensures verdict { paper result ≡ run (named sps93 k l.now) }
{
    if !is_type(l, 18) || text::names_projection(l) {
        return Ok(());
    }
    lines::at_line(8, 1, k, 33)
}

// 8: each H18 names a projection.
#[tactic(auto, using(crate::proofs::Laws::eight_walk))]
pub fn rule8(how: Reading, r: &[u8]) -> Verdict
    requires { (sheet_of how r.now).count ≤ most_lines }
    ensures verdict { paper result ≡ run (up_to (heads_of (sheet_of how r.now)) (rule8_of (sheet_of how r.now))) }
{
    let n = heads(how, r);
    for k in 0..n {
        let l = lines::line_of(how, r, k);
        line_names(&l, k)?;
    }
    Ok(())
}

// 9 of line k of file i, column by column.
#[tactic(auto, using(crate::proofs::Laws::columns), unfolding(rules::specs::Sheet::most_lines))]
fn same_columns(i: u8, k: usize, l: &[u8; 80], m: &[u8; 80]) -> Verdict
    requires { (k < most_lines) × ((length l.now ≡ 80) × (length m.now ≡ 80)) }
    ensures verdict { paper result ≡ run (same_columns i k 1 l.now m.now) }
{
    for c in 0..80 {
        if l[c] != m[c] {
            return lines::at_line(9, i, k, c as u8 + 1);
        }
    }
    Ok(())
}

// 9 of the first n lines of file i, which R has too.
#[tactic(auto, using(crate::proofs::Laws::nine_walk), unfolding(crate::specs::Steps::same_lines))]
fn same_lines(how: Reading, i: u8, r: &[u8], f: &[u8], n: usize) -> Verdict
    requires { (n ≤ most_lines) × ((n ≤ (sheet_of how r.now).count) × (n ≤ (sheet_of how f.now).count)) }
    ensures verdict { paper result ≡ run (same_lines i (sheet_of how r.now) (sheet_of how f.now) n) }
{
    for k in 0..n {
        let l = lines::line_of(how, r, k);
        let m = lines::line_of(how, f, k);
        same_columns(i, k, &l, &m)?;
    }
    Ok(())
}

// 9: the header of file i is R's, line by line, then by the number of lines.
#[tactic(auto, using(crate::proofs::Laws::nine), unfolding(rules::specs::Sheet::most_lines))]
pub fn rule9(how: Reading, i: u8, r: &[u8], f: &[u8]) -> Verdict
    requires { ((sheet_of how r.now).count ≤ most_lines) × ((sheet_of how f.now).count ≤ most_lines) }
    ensures verdict { paper result ≡ run (rule9_of i (sheet_of how r.now) (sheet_of how f.now)) }
{
    let a = heads(how, r);
    let b = heads(how, f);
    let n = a.min(b);
    same_lines(how, i, r, f, n)?;
    if a == b {
        return Ok(());
    }
    lines::at_line(9, i, n, 0)
}

// 7, 8, then 9 of S and of X.
#[tactic(auto, using(rules::proofs::Plans::plans), unfolding(crate::specs::Steps::headers_fit))]
pub fn headers_fit(how: Reading, r: &[u8], s: &[u8], x: &[u8]) -> Verdict
    requires r_bound { (sheet_of how r.now).count ≤ most_lines }
    requires s_bound { (sheet_of how s.now).count ≤ most_lines }
    requires x_bound { (sheet_of how x.now).count ≤ most_lines }
    ensures verdict { paper result ≡ run (headers_fit (sheet_of how r.now) (sheet_of how s.now) (sheet_of how x.now)) }
{
    rule7(how, r)?;
    rule8(how, r)?;
    rule9(how, 2, r, s)?;
    rule9(how, 3, r, x)
}
