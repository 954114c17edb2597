#![tactic(auto)]
// The program's line: what it says of a set or of a file that cannot be used, as bytes in the first places of a lent buffer. Where the
// line has no room nothing is written; the answer is its length in either case. There is no heap here, so a line is made in an array of
// the call that holds the longest, then put over.
ghost use Rattle.std.specs.Prelude.{◌≡◌, ◌≤◌, ◌∷◌, [], ◌++◌, length};
ghost use Rattle.rules.specs.Text.{bytes};
ghost use Rattle.rules.specs.Lines.{letter as letter_of};
ghost use Rattle.sets.specs.Paper.{paper};
ghost use Rattle.rules.specs.Figures.{decimal_of};
ghost use Rattle.words.specs.Words.{row as row_of, line as line_of, no_file, too_long};
ghost use Rattle.texts.specs.Buffer.{over, Adds};

use lines::Refusal;
use sets::Counts;

// The line of an accepted set.
fn accepted(c: Counts, line: &mut [u8; 120]) -> usize
    ensures added { Adds line.old 0
        (row_of (bytes "ACCEPTED")
        (decimal_of c.receivers ∷ decimal_of c.shots ∷ decimal_of c.relations ∷ decimal_of c.traces ∷ decimal_of c.dead_traces ∷ []))
        line.new result }
    ensures small { result ≤ 114 }
{
    let a = texts::add(b"ACCEPTED", line, 0);
    let b = texts::number(c.receivers, line, a);
    let d = texts::number(c.shots, line, b);
    let e = texts::number(c.relations, line, d);
    let f = texts::number(c.traces, line, e);
    let g = texts::number(c.dead_traces, line, f);
    texts::byte(b'\n', line, g)
}

// The line of a refused set.
fn refused(w: Refusal, line: &mut [u8; 120]) -> usize
    ensures added { Adds line.old 0
        (row_of (bytes "REFUSED") (decimal_of w.number ∷ (letter_of w.file ∷ []) ∷ decimal_of w.line ∷ decimal_of w.column ∷ [])) line.new result }
    ensures small { result ≤ 114 }
{
    let a = texts::add(b"REFUSED", line, 0);
    let b = texts::number(u64::from(w.number), line, a);
    let d = texts::add(&[b' ', lines::letter(w.file)], line, b);
    let e = texts::number(u64::from(w.line), line, d);
    let g = texts::number(u64::from(w.column), line, e);
    texts::byte(b'\n', line, g)
}

// The line of an answer to the cross-check.
#[tactic(auto, unfolding(crate::specs::Words::line))]
fn spell(a: Result<Counts, Refusal>, line: &mut [u8; 120]) -> usize
    ensures added { Adds line.old 0 (line_of (paper a)) line.new result }
    ensures small { result ≤ 114 }
{
    match a {
        Ok(c) => accepted(c, line),
        Err(w) => refused(w, line),
    }
}

// Says the verdict on a set.
pub fn verdict(a: Result<Counts, Refusal>, out: &mut [u8]) -> usize
    ensures value { result ≡ length (line_of (paper a)) }
    ensures written { out.new ≡ over (line_of (paper a)) out.old }
    ensures small { result ≤ 114 }
{
    let mut line = [0u8; 120];
    let n = spell(a, &mut line);
    texts::place(&line[..n], out);
    n
}

// Says a word of a file, and the file's letter after it.
fn of_file(word: &[u8], i: u8, out: &mut [u8]) -> usize
    requires { length word.now ≤ 14 }
    ensures value { result ≡ length (word.now ++ (letter_of i ∷ 10 ∷ [])) }
    ensures written { out.new ≡ over (word.now ++ (letter_of i ∷ 10 ∷ [])) out.old }
{
    let mut line = [0u8; 16];
    let n = texts::add(word, &mut line, 0);
    let m = texts::add(&[lines::letter(i), b'\n'], &mut line, n);
    texts::place(&line[..m], out);
    m
}

// Says that file i is missing.
#[tactic(auto, unfolding(crate::specs::Words::no_file, rules::specs::Text::bytes))]
pub fn no_file(i: u8, out: &mut [u8]) -> usize
    ensures value { result ≡ length (no_file i) }
    ensures written { out.new ≡ over (no_file i) out.old }
{
    of_file(b"NO FILE ", i, out)
}

// Says that file i is too long.
#[tactic(auto, unfolding(crate::specs::Words::too_long, rules::specs::Text::bytes))]
pub fn too_long(i: u8, out: &mut [u8]) -> usize
    ensures value { result ≡ length (too_long i) }
    ensures written { out.new ≡ over (too_long i) out.old }
{
    of_file(b"TOO LONG ", i, out)
}
