#![tactic(auto)]
// The files of a set: each is read into a lent buffer, and one line says what they are. Of what the system reads or prints no
// contract can speak; so `input` decides on what the calls of read answer, `report` says all of the line on slices, `tell` only
// reads and hands over to it, and `print` only prints.
ghost use Rattle.std.specs.Prelude.{◌≡◌, ◌≤◌, Err, length, take};
ghost use Rattle.rules.specs.Disc.{file};
ghost use Rattle.rules.specs.Check.{cross as cross_of};
ghost use Rattle.sets.specs.Paper.{paper};
ghost use Rattle.texts.specs.Buffer.{over};
ghost use Rattle.files.specs.Reads.{Found};
ghost use Rattle.files.specs.Report.{fault as fault_of, report as report_of, told};

use lines::Refusal;
use sets::Counts;
use std::cmp::min;
use std::rt::Files;

mod input;

pub use input::{Input, Loaded, Unusable, load, size};

// The paths of three files.
#[derive(Clone, Copy, Debug, PartialEq, Eq)]
pub struct Paths<'a> {
    pub r: &'a [u8],
    pub s: &'a [u8],
    pub x: &'a [u8],
}

// What was said of three files: the length of their line, and what was found of each.
#[derive(Clone, Copy, Debug, PartialEq, Eq)]
pub struct Said {
    pub size: usize,
    pub r: Loaded,
    pub s: Loaded,
    pub x: Loaded,
}

// What was said of three files, and whether all of it was written.
#[derive(Clone, Copy, Debug, PartialEq, Eq)]
pub struct Printed {
    pub said: Said,
    pub whole: bool,
}

// The first n bytes of a buffer; all where it has fewer.
fn first(n: usize, b: &[u8]) -> &[u8]
    ensures value { result.now ≡ take n b.now }
{
    &b[..min(n, b.len())]
}

// Says why file n cannot be used.
#[tactic(auto, unfolding(crate::specs::Report::fault, words::specs::Words::no_file, words::specs::Words::too_long, rules::specs::Text::bytes))]
fn fault(n: u8, why: Unusable, out: &mut [u8]) -> usize
    ensures value { result ≡ length (fault_of n (Err why)) }
    ensures written { out.new ≡ over (fault_of n (Err why)) out.old }
    ensures small { result ≤ 114 }
{
    match why {
        Unusable::Missing => words::no_file(n, out),
        Unusable::Longer => words::too_long(n, out),
    }
}

// The verdict on three files: the form of each, then the cross-check.
fn judged(r: &[u8], s: &[u8], x: &[u8]) -> Result<Counts, Refusal>
    ensures answer { paper result ≡ cross_of (file r.now) (file s.now) (file x.now) }
{
    let how = lines::disc();
    form::form(how, b'R' as u64, r)?;
    form::form(how, b'S' as u64, s)?;
    form::form(how, b'X' as u64, x)?;
    sets::cross(how, r, s, x)
}

// The line of three files, in the first places of out where it has room; answers its length.
pub fn report(i: Input, r: &[u8], j: Input, s: &[u8], k: Input, x: &[u8], out: &mut [u8]) -> usize
    ensures value { result ≡ length (report_of i r.now j s.now k x.now) }
    ensures written { out.new ≡ over (report_of i r.now j s.now k x.now) out.old }
    ensures small { result ≤ 114 }
{
    match (i, j, k) {
        (Err(why), _, _) => fault(1, why, out),
        (Ok(_), Err(why), _) => fault(2, why, out),
        (Ok(_), Ok(_), Err(why)) => fault(3, why, out),
        (Ok(a), Ok(b), Ok(c)) => words::verdict(judged(first(a, r), first(b, s), first(c, x)), out),
    }
}

// Reads the files at three paths into lent buffers and says what they are.
pub fn tell<R: Files>(
    rt: &R,
    paths: Paths<'_>,
    r: &mut [u8],
    s: &mut [u8],
    x: &mut [u8],
    out: &mut [u8],
) -> Said
    ensures r_found { Found paths.entry.r.now result.r r.old r.new }
    ensures s_found { Found paths.entry.s.now result.s s.old s.new }
    ensures x_found { Found paths.entry.x.now result.x x.old x.new }
    ensures value { result.size ≡ length (told result r.new s.new x.new) }
    ensures written { out.new ≡ over (told result r.new s.new x.new) out.old }
    ensures small { result.size ≤ 114 }
{
    let i = load(rt, paths.r, r);
    let j = load(rt, paths.s, s);
    let k = load(rt, paths.x, x);
    let size = report(i.input(), r, j.input(), s, k.input(), x, out);
    Said {
        size,
        r: i,
        s: j,
        x: k,
    }
}

// Prints the line of the files at three paths, read into lent buffers.
pub fn print<R: Files + Print>(
    rt: &R,
    paths: Paths<'_>,
    r: &mut [u8],
    s: &mut [u8],
    x: &mut [u8],
) -> Printed
    ensures r_found { Found paths.entry.r.now result.said.r r.old r.new }
    ensures s_found { Found paths.entry.s.now result.said.s s.old s.new }
    ensures x_found { Found paths.entry.x.now result.said.x x.old x.new }
{
    let mut line = [0u8; 120];
    let said = tell(rt, paths, r, s, x, &mut line);
    let whole = rt.write_all(&line[..said.size]).is_ok();
    Printed { said, whole }
}
