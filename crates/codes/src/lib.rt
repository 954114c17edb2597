#![tactic(auto)]
// The code tables of R's header: 24, then 25 over R, S and X. One pass over the header notes which codes are named, one pass over the lines
// of each file asks for those that they use. A kind of codes is the number of the file that uses them, since callers ask of any number.
ghost use Rattle.std.specs.Prelude.{◌≡◌, [], ◌∷◌, ◌≤◌, ◌<◌, replicate, true, false, IfSome};
ghost use Rattle.rules.specs.Plan.{fine, run, up_to};
ghost use Rattle.rules.specs.Layout.{sps93};
ghost use Rattle.rules.specs.Sheet.{most_lines};
ghost use Rattle.rules.specs.Lines.{heads as heads_of};
ghost use Rattle.rules.specs.Codes.{tables_of, code_span, line_naming, rule24 as rule24_of, codes_fit};
ghost use Rattle.lines.specs.Paper.{paper};
ghost use Rattle.lines.specs.Reading.{sheet_of};
ghost use Rattle.form.specs.Known.{Known};
ghost use Rattle.codes.specs.Named.{place_or, line_or, place_used, all_noted, Noted, Kind};

use fields::figures;
use lines::{Reading, Verdict};

mod tables;

// 24: no first record names a code that an earlier one of its kind names. What is named is noted.
#[tactic(auto, using(crate::proofs::Naming::noted_walk), unfolding(rules::specs::Sheet::most_lines))]
fn rule24(how: Reading, r: &[u8], named: &mut [bool; tables::PLACES]) -> Verdict
    requires { ((sheet_of how r.now).count ≤ most_lines) × (named.old ≡ replicate 243 false) }
    ensures verdict { paper result ≡ run (up_to (heads_of (sheet_of how r.now)) (rule24_of (sheet_of how r.now))) }
    ensures written { paper result ≡ fine → Noted (sheet_of how r.now) (heads_of (sheet_of how r.now)) named.new }
{
    for k in 0..headers::heads(how, r) {
        let l = lines::line_of(how, r, k);
        if let Some(p) = tables::named_by(&l) {
            if named[p] {
                return lines::at_line(24, 1, k, 33);
            }
            named[p] = true;
        }
    }
    Ok(())
}

// The place of the code that line k of file i uses: the code of a point, or the instrument of a relation line.
#[tactic(auto, using(crate::proofs::Used::used))]
fn used_by(how: Reading, i: u8, f: &[u8], k: usize) -> Option<usize>
    requires { Known i (sheet_of how f.now) × (k < (sheet_of how f.now).count) }
    ensures value { place_or result ≡ place_used i (sheet_of how f.now) k }
    ensures few { IfSome result (λ p. p < 243) }
{
    let l = lines::own_of(how, f, k);
    if lines::is_letter(how, l[0], b'H') {
        return None;
    }
    if i == 3 {
        return tables::place(3, 48 + figures::index(&l, 13) as u8, b',');
    }
    tables::place(i, lines::char_of(how, l[26]), lines::char_of(how, l[27]))
}

// The column of a code in file i.
#[tactic(auto, unfolding(rules::specs::Places::pick, rules::specs::Layout::sps93))]
fn code_column(i: u8) -> u8
    ensures value { result ≡ (code_span sps93 i).first }
{
    if i == 3 {
        return 13;
    }
    27
}

// 25 over file i: each code that it uses is noted.
#[tactic(auto, using(crate::proofs::Used::used_walk), unfolding(rules::specs::Sheet::most_lines))]
fn rule25(how: Reading, i: u8, f: &[u8], named: &[bool; tables::PLACES]) -> Verdict
    requires { Known i (sheet_of how f.now) }
    ensures verdict { paper result ≡ run (all_noted named.now i (sheet_of how f.now)) }
{
    for k in 0..lines::line_count(how, f) {
        if let Some(p) = used_by(how, i, f, k) {
            if !named[p] {
                return lines::at_line(25, i, k, code_column(i));
            }
        }
    }
    Ok(())
}

// 24, then 25 over R, S and X.
pub fn codes_fit(how: Reading, r: &[u8], s: &[u8], x: &[u8]) -> Verdict
    requires { Known 1 (sheet_of how r.now) × (Known 2 (sheet_of how s.now) × Known 3 (sheet_of how x.now)) }
    ensures verdict { paper result ≡ run (codes_fit (sheet_of how r.now) (sheet_of how s.now) (sheet_of how x.now)) }
{
    // flags, since nothing is allocated
    let mut named = [false; tables::PLACES];
    rule24(how, r, &mut named)?;
    rule25(how, 1, r, &named)?;
    rule25(how, 2, s, &named)?;
    rule25(how, 3, x, &named)
}

// The bytes b and d are a code of kind i, as a table has it.
#[tactic(auto, using(crate::proofs::Placed::code_told))]
pub fn is_code(i: u8, b: u8, d: u8) -> bool
    ensures value { result ≡ (tables_of i).is_code (b ∷ d ∷ []) }
{
    tables::place(i, b, d).is_some()
}

// The header line of R that names a code of kind i, from 1.
#[tactic(auto, using(crate::proofs::Naming::naming_walk), unfolding(rules::specs::Sheet::most_lines))]
pub fn line_naming(how: Reading, r: &[u8], i: u8, b: u8, d: u8) -> Option<u32>
    requires { ((sheet_of how r.now).count ≤ most_lines) × (Kind i × ((tables_of i).is_code (b ∷ d ∷ []) ≡ true)) }
    ensures value { line_or result ≡ line_naming (sheet_of how r.now) i (b ∷ d ∷ []) }
    ensures counted { IfSome result (λ k. 1 ≤ k) }
{
    let p = tables::place(i, b, d);
    for k in 0..headers::heads(how, r) {
        let l = lines::line_of(how, r, k);
        if tables::named_by(&l) == p {
            return Some(k as u32 + 1);
        }
    }
    None
}
