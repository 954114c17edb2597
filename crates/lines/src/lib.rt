#![tactic(auto)]
// The medium: a file as lines of 80 columns, and what it refuses (1, 2, and 3's column of a line).
// Lines count from 0 here; above this crate nobody knows how many bytes a line has.
ghost use Rattle.std.specs.Prelude.{◌≡◌, ℕ, ◌+◌, ◌*◌, ◌<◌, ◌≤◌, true, length, take, ◌==◌};
ghost use Rattle.rules.specs.Places.{pick, least};
ghost use Rattle.rules.specs.Plan.{refused, №, run, ◌before◌};
ghost use Rattle.rules.specs.Disc.{byte_fits};
ghost use Rattle.rules.specs.Sheet.{most_lines, all_lines};
ghost use Rattle.rules.specs.Tape.{tape};
ghost use Rattle.rules.specs.Calls.{choice as choice_of};
ghost use Rattle.rules.specs.MeetsDisc.{Proper};
ghost use Rattle.rules.specs.Form.{stray as stray_of, ending as ending_of, rule1, rule2, rule29};
ghost use Rattle.rules.specs.Show.{shown as columns_of, start, of_s, show as show_of, start_in};
ghost use Rattle.lines.specs.Paper.{paper, told, unless_none, into};
ghost use Rattle.lines.specs.Reading.{on_disc, medium_of, chosen_by, sheet_of, columns_at, Printed};

mod eof;
mod letters;
mod page;
mod proper;

pub use letters::{kind_of, letter};

// At most so many lines a file.
pub const MOST_LINES: usize = 9999;

// What a file or a set is refused for: the paper's number, which hosts are told as it is, and where: the file (R 1, S 2, X 3), the line and the
// column, from 1; 0 where there is none.
#[derive(Clone, Copy, Debug, PartialEq, Eq)]
pub struct Refusal {
    pub number: u8,
    pub file: u8,
    pub line: u32,
    pub column: u8,
}

// What a check says of a file or a set: nothing, or what it is refused for.
pub type Verdict = Result<(), Refusal>;

// The form in which files come: a value and no type parameter, since it is known only when the check runs.
#[derive(Clone, Copy, Debug, PartialEq, Eq)]
pub enum Medium {
    Disc,
    Tape,
}

// How the files of a set are read. Only this crate looks into it.
#[derive(Clone, Copy, Debug, PartialEq, Eq)]
pub struct Reading {
    pub medium: Medium,
}

// The disc form.
pub fn disc() -> Reading
    ensures value { result ≡ on_disc }
{
    Reading {
        medium: Medium::Disc,
    }
}

// The medium of a caller's number: 1 the disc form, 2 the tape form, any other none.
pub fn chosen(medium: u64) -> Option<Reading>
    ensures value { chosen_by result ≡ choice_of medium }
{
    match medium {
        1 => Some(Reading {
            medium: Medium::Disc,
        }),
        2 => Some(Reading {
            medium: Medium::Tape,
        }),
        _ => None,
    }
}

// The bytes of a line.
fn stride(how: Reading) -> usize
    ensures value { result ≡ (medium_of how).stride }
{
    match how.medium {
        Medium::Disc => 82,
        Medium::Tape => 80,
    }
}

// How many lines end a file.
fn closing(how: Reading) -> usize
    ensures value { result ≡ (medium_of how).closing }
{
    match how.medium {
        Medium::Disc => 0,
        Medium::Tape => 1,
    }
}

// A refusal that has no place.
pub fn unplaced(number: u8) -> Refusal
    ensures value { told result ≡ № number 0 0 0 }
{
    Refusal {
        number,
        file: 0,
        line: 0,
        column: 0,
    }
}

// Refusal n of file i, at column c of line k, from 0.
pub fn at_line(n: u8, i: u8, k: usize, c: u8) -> Verdict
    requires { k < 4294967295 }
    ensures verdict { paper result ≡ refused (№ n i (k + 1) c) }
{
    Err(Refusal {
        number: n,
        file: i,
        line: k as u32 + 1,
        column: c,
    })
}

// How many lines of the set a file has.
pub fn line_count(how: Reading, f: &[u8]) -> usize
    ensures value { result ≡ (sheet_of how f.now).count }
{
    match how.medium {
        Medium::Disc => f.len() / 82,
        Medium::Tape => (f.len() / 80).saturating_sub(1),
    }
}

// The first line that says that the set's lines have ended, or the number of lines.
fn ending(how: Reading, f: &[u8]) -> usize
    ensures value { result ≡ ending_of (sheet_of how f.now) }
{
    let n = f.len() / stride(how);
    match how.medium {
        Medium::Disc => n,
        Medium::Tape => eof::first_eof(f, n),
    }
}

// 29 of file i.
fn end_fits(how: Reading, f: &[u8], i: u8) -> Verdict
    requires { all_lines (sheet_of how f.now) ≤ most_lines }
    ensures verdict { paper result ≡ run (rule29 i (sheet_of how f.now)) }
{
    let n = f.len() / stride(how);
    let e = ending(how, f);
    if e + closing(how) == n {
        return Ok(());
    }
    if e < n {
        return at_line(29, i, e + 1, 0);
    }
    at_line(29, i, n, 0)
}

// 1, 2 and 29 of file i.
pub fn length_fits(how: Reading, f: &[u8], i: u8) -> Verdict
    ensures verdict { paper result ≡ run (rule1 i (sheet_of how f.now) before rule2 i (sheet_of how f.now)
        before rule29 i (sheet_of how f.now)) }
{
    let w = stride(how);
    let n = f.len() / w;
    if f.len() % w != 0 {
        return at_line(1, i, n.min(MOST_LINES), 0);
    }
    if MOST_LINES < n {
        return at_line(2, i, MOST_LINES, 0);
    }
    end_fits(how, f, i)
}

// The 80 bytes from `at` on.
fn columns(f: &[u8], at: usize) -> [u8; 80]
    requires { at + 80 ≤ length f.now }
    ensures value { result ≡ columns_at f.now at }
{
    let mut l = [0; 80];
    l.copy_from_slice(&f[at..at + 80]);
    l
}

// Line k as 80 columns.
pub fn line_of(how: Reading, f: &[u8], k: usize) -> [u8; 80]
    requires { k < (sheet_of how f.now).count }
    ensures value { result ≡ (sheet_of how f.now).row k }
{
    let l = columns(f, stride(how) * k);
    match how.medium {
        Medium::Disc => l,
        Medium::Tape => page::translated(l),
    }
}

// The first 80 bytes of line k as the medium has them: by these names are in order, and a line that the form check has passed is read.
pub fn own_of(how: Reading, f: &[u8], k: usize) -> [u8; 80]
    requires { k < (sheet_of how f.now).count }
    ensures value { result ≡ take 80 ((sheet_of how f.now).raw k) }
{
    columns(f, stride(how) * k)
}

// A byte of the medium's own is that capital letter.
pub fn is_letter(how: Reading, b: u8, c: u8) -> bool
    requires { (65 ≤ c) × (c ≤ 90) }
    ensures value { result ≡ ((medium_of how).char_of b == c) }
{
    match how.medium {
        Medium::Disc => b == c,
        Medium::Tape => b == page::capital(c),
    }
}

// The character of a byte of the medium's own.
pub fn char_of(how: Reading, b: u8) -> u8
    ensures value { result ≡ (medium_of how).char_of b }
{
    match how.medium {
        Medium::Disc => b,
        Medium::Tape => page::char_of(b),
    }
}

// Line k has no byte outside its range.
fn is_clean(how: Reading, f: &[u8], k: usize) -> bool
    requires { k < (sheet_of how f.now).count }
    ensures value { result ≡ true → stray_of (sheet_of how f.now) k ≡ 0 }
{
    match how.medium {
        Medium::Disc => proper::all_proper(f, 82 * k),
        Medium::Tape => page::all_taken(page::translated(columns(f, 80 * k))),
    }
}

// What a byte in column c of a line may be.
fn takes(how: Reading, c: usize, b: u8) -> bool
    ensures value { result ≡ (medium_of how).takes c b }
{
    match how.medium {
        Medium::Disc => proper::byte_fits(c, b),
        Medium::Tape => page::char_of(b) != 0,
    }
}

// 3 of line k, column by column.
fn first_stray(how: Reading, f: &[u8], k: usize) -> Option<u8>
    requires { k < (sheet_of how f.now).count }
    ensures value { result ≡ unless_none (stray_of (sheet_of how f.now) k) }
{
    let w = stride(how);
    let at = w * k;
    for c in 0..w {
        if !takes(how, c + 1, f[at + c]) {
            return Some(c as u8 + 1);
        }
    }
    None
}

// 3 of line k: the lowest of its columns whose byte is outside its range.
pub fn stray(how: Reading, f: &[u8], k: usize) -> Option<u8>
    requires { k < (sheet_of how f.now).count }
    ensures value { result ≡ unless_none (stray_of (sheet_of how f.now) k) }
{
    if is_clean(how, f, k) {
        return None;
    }
    first_stray(how, f, k)
}

// The 80 columns of line n, counted from 1, as a part of the file; nothing for line 0 or a line beyond the whole lines.
fn shown(f: &[u8], n: usize) -> &[u8]
    ensures value { result.now ≡ columns_of f.now n }
    ensures kept { result.ref_ptr ≡ into f.entry.ref_ptr (start f.now n) }
{
    if n < 1 {
        return &f[..0];
    }
    if f.len() / 82 < n {
        return &f[..0];
    }
    let a = 82 * (n - 1);
    let e = a + 80;
    &f[a..e]
}

// Shows line n, counted from 1, of the file of that letter, R or S: its 80 columns as a part of the caller's own file, or an empty
// part. The set is not checked.
pub fn show<'a>(r: &'a [u8], s: &'a [u8], letter: u8, n: usize) -> &'a [u8]
    ensures value { result.now ≡ show_of r.now s.now letter n }
    ensures kept { result.ref_ptr ≡ into (pick (of_s letter) s.entry.ref_ptr r.entry.ref_ptr) (start_in r.now s.now letter n) }
{
    if letter == b'S' {
        return shown(s, n);
    }
    if letter == b'R' {
        return shown(r, n);
    }
    &r[..0]
}
