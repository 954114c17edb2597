#![tactic(auto)]
// The sets of the folders that two files list, `names` those of disc files and `tapes` those of tapes, a name to a line: for each its
// name, a blank and the line of its verdict, then a line for each of its files that is not well formed by itself. Every refusal number of the
// cross-check has a folder; for 2, which takes 10,000 lines, the buffer of R has room for them and a line more. A line that cannot be
// written ends the program with that error.
ghost use Rattle.std.specs.Prelude.{◌≡◌, ◌≤◌, length};

use files::Paths;
use lines::{Reading, Refusal};
use sets::Counts;
use std::io;
use std::rt::Files;

// The size of a list, and of the buffers of a folder's files; that of R has room for 10,000 lines and a line more.
const LIST: usize = 4_096;

const BUFFER: usize = 65_536;

const LARGE: usize = 820_082;

// Where the line ends that begins at n.
fn end(names: &[u8], n: usize) -> usize
    requires { n ≤ length names.now }
    ensures within { (n ≤ result) × (result ≤ length names.now) }
{
    names[n..]
        .iter()
        .position(|b| *b == b'\n')
        .map_or(names.len(), |k| n + k)
}

// The path of a file in a folder, at the start of out; empty where the folder's name is too long.
fn path(folder: &[u8], file: &[u8; 8], out: &mut [u8]) -> usize
    requires { length out.old ≡ 64 }
    ensures small { result ≤ 64 }
{
    let n = folder.len();
    if 56 < n {
        return 0;
    }
    texts::place(folder, out);
    texts::place(file, &mut out[n..]);
    n + 8
}

// The line of an answer.
fn print(rt: &impl Print, a: Result<Counts, Refusal>) -> io::Result<()> {
    let mut line = [0u8; 120];
    let n = words::verdict(a, &mut line);
    rt.write_all(&line[..n])
}

// The line of a file that is not well formed by itself.
fn alone(rt: &impl Print, how: Reading, kind: u64, f: &[u8]) -> io::Result<()> {
    if let Err(e) = form::form(how, kind, f) {
        rt.write_all(b"  alone ")?;
        print(rt, Err(e))?;
    }
    Ok(())
}

// The lines of three files.
fn told(rt: &impl Print, how: Reading, r: &[u8], s: &[u8], x: &[u8]) -> io::Result<()> {
    print(rt, sets::cross(how, r, s, x))?;
    alone(rt, how, u64::from(b'R'), r)?;
    alone(rt, how, u64::from(b'S'), s)?;
    alone(rt, how, u64::from(b'X'), x)
}

// The line of the files at three paths, read in one way into lent buffers.
fn said<R: Files + Print>(
    rt: &R,
    how: Reading,
    paths: Paths<'_>,
    r: &mut [u8],
    s: &mut [u8],
    x: &mut [u8],
) -> io::Result<()> {
    let i = files::size(files::load(rt, paths.r, r).input());
    let j = files::size(files::load(rt, paths.s, s).input());
    let k = files::size(files::load(rt, paths.x, x).input());
    told(rt, how, &r[..i], &s[..j], &x[..k])
}

// The line of one folder.
fn one<R: Files + Print>(rt: &R, how: Reading, folder: &[u8]) -> io::Result<()> {
    let mut r = [0u8; 64];
    let mut s = [0u8; 64];
    let mut x = [0u8; 64];
    let a = path(folder, b"/set.r01", &mut r);
    let b = path(folder, b"/set.s01", &mut s);
    let c = path(folder, b"/set.x01", &mut x);
    rt.write_all(folder)?;
    rt.write_all(b" ")?;
    let mut large = [0u8; LARGE];
    let mut second = [0u8; BUFFER];
    let mut third = [0u8; BUFFER];
    let paths = Paths {
        r: &r[..a],
        s: &s[..b],
        x: &x[..c],
    };
    said(rt, how, paths, &mut large, &mut second, &mut third)
}

// The lines of all folders of a list.
fn each<R: Files + Print>(rt: &R, how: Reading, names: &[u8]) -> io::Result<()> {
    let mut n = 0;
    while n < names.len() {
        let e = end(names, n);
        one(rt, how, &names[n..e])?;
        n = e + 1;
    }
    Ok(())
}

// The lines of the folders that a file lists.
fn listed<R: Files + Print>(rt: &R, how: Reading, list: &[u8]) -> io::Result<()> {
    let mut names = [0u8; LIST];
    if let Ok(n) = files::load(rt, list, &mut names).input() {
        each(rt, how, &names[..n])?;
    }
    Ok(())
}

fn main(rt: HostRuntime) -> io::Result<()> {
    listed(&rt, lines::disc(), b"names")?;
    if let Some(how) = lines::chosen(2) {
        listed(&rt, how, b"tapes")?;
    }
    Ok(())
}
