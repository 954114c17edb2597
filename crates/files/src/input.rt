// A file read into a lent buffer. `next` alone decides what follows on a call of read, from what the call answered. A call reads
// into a chunk, and its bytes are copied to their place.
ghost use Rattle.std.specs.Prelude.{◌≡◌, ◌≤◌, ◌<◌, IfSome, ◌++◌, length, take, drop};
ghost use Rattle.files.specs.Reads.{size_of, rest_of, next as next_of, came, Follows, Tells, IsRead, path as path_of, Found};

use std::fs::{File, OpenOptions};
use std::io::{Read, Seek};
use std::rt::Files;

// The most bytes of a path that the system has room for.
const PATH_MAX: usize = 4096;

// The most bytes that one call reads.
const CHUNK: usize = 4096;

// Why a file cannot be used: it cannot be opened or read, or it is longer than its buffer.
#[derive(Clone, Copy, Debug, PartialEq, Eq)]
pub enum Unusable {
    Missing,
    Longer,
}

// What was found of a file: so many bytes of its buffer are its own.
pub type Input = Result<usize, Unusable>;

// A path by value: its bytes, and how many they are.
#[derive(Clone, Copy, Debug, PartialEq, Eq)]
pub struct Path {
    bytes: [u8; PATH_MAX],
    size: usize,
}

// What was found of the file at a path, which it has by value: who asked may let its own go. Outside of this module nothing makes one.
#[derive(Clone, Copy, Debug, PartialEq, Eq)]
pub struct Loaded {
    path: Path,
    input: Input,
}

impl Loaded {
    pub fn input(self) -> Input
        ensures value { result ≡ self.input }
    {
        self.input
    }
}

// What follows on an answer of read, `None` where the call failed, where the buffer has room for so many bytes: how many came, `None` at the end.
pub fn next(got: Option<usize>, room: usize) -> Result<Option<usize>, Unusable>
    ensures value { result ≡ next_of got room }
{
    match got {
        None => Err(Unusable::Missing),
        Some(0) => Ok(None),
        Some(m) if room < m => Err(Unusable::Longer),
        Some(m) => Ok(Some(m)),
    }
}

// One call of read: what follows on it, with its bytes in the first places of what is left of the buffer.
fn piece<F: Read>(
    file: &mut F,
    left: &mut [u8],
    chunk: &mut [u8],
) -> Result<Option<usize>, Unusable>
    ensures follows { Follows (length left.old) result }
    ensures written { left.new ≡ take (came result) chunk.new ++ drop (came result) left.old }
    ensures stands { came result ≤ length chunk.new }
    ensures bytes { 0 < length chunk.old → Tells (F.remaining file.old) (F.remaining file.new) result (length left.old) chunk.new }
{
    let got = file.read(chunk).ok();
    let came = next(got, left.len())?;
    if let Some(m) = came {
        left[..m].copy_from_slice(&chunk[..m]);
    }
    Ok(came)
}

// Reads an open file to its end, or to where it is longer than the buffer.
fn read<F: Read>(file: &mut F, buf: &mut [u8]) -> Input
    ensures fits { size_of result ≤ length buf.old }
    ensures rest { rest_of result buf.new ≡ rest_of result buf.old }
    ensures known { IfSome (F.remaining file.old) (λ xs. IsRead result xs buf.new) }
{
    let mut space = [0u8; CHUNK];
    let chunk: &mut [u8] = &mut space;
    let mut n = 0;
    while let Some(m) = piece(file, &mut buf[n..], chunk)? {
        n += m;
    }
    Ok(n)
}

// A path by value. One that the system has no room for is no path.
pub fn path_of(text: &[u8]) -> Path
    ensures value { result ≡ path_of text.now }
{
    let mut bytes = [0u8; PATH_MAX];
    texts::place(text, &mut bytes);
    Path {
        bytes,
        size: text.len(),
    }
}

// Whether a FIFO stands at the path. To open one for reading waits for somebody who writes; to open it for both does not, and it has no place
// that could be sought. A file that may not be written is taken as none.
fn is_fifo(rt: &impl Files, path: &str) -> bool {
    match OpenOptions::new().read(true).write(true).open(rt, path) {
        Ok(mut file) => file.stream_position().is_err(),
        Err(_) => false,
    }
}

// Opens a file, where there is one. A FIFO is no file. A path is text.
fn open<R: Files>(rt: &R, path: &[u8]) -> Option<R::File> {
    let name = str::from_utf8(path).ok()?;
    if is_fifo(rt, name) {
        return None;
    }
    File::open(rt, name).ok()
}

// Reads what was opened, and closes it.
fn take_in<F: Read + Drop>(file: Option<F>, buf: &mut [u8]) -> Input
    ensures fits { size_of result ≤ length buf.old }
    ensures rest { rest_of result buf.new ≡ rest_of result buf.old }
    ensures known { IfSome file (λ f. IfSome (F.remaining f) (λ xs. IsRead result xs buf.new)) }
{
    let mut file = file.ok_or(Unusable::Missing)?;
    read(&mut file, buf)
}

// Reads the file at a path.
pub fn load<R: Files>(rt: &R, text: &[u8], buf: &mut [u8]) -> Loaded
    ensures found { Found text.now result buf.old buf.new }
{
    let path = path_of(text);
    let input = take_in(open(rt, text), buf);
    Loaded { path, input }
}

// How many bytes of a file were read; none of one that cannot be used.
pub fn size(i: Input) -> usize
    ensures value { result ≡ size_of i }
{
    i.unwrap_or(0)
}
