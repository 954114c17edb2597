#![tactic(auto)]
// Text added to a buffer from a place on: a byte, one byte many times, a part, the digits of a number. Each answers where what it
// added ends.
ghost use Rattle.std.specs.Prelude.{◌≡◌, ◌∷◌, [], ◌+◌, ◌≤◌, ◌<◌, length, replicate};
ghost use Rattle.rules.specs.Figures.{decimal_of};
ghost use Rattle.texts.specs.Buffer.{Adds, over};

// Adds a byte.
pub fn byte(b: u8, out: &mut [u8], n: usize) -> usize
    requires { n < length out.old }
    ensures added { Adds out.old n (b ∷ []) out.new result }
{
    out[n] = b;
    n + 1
}

// Adds a byte k times.
pub fn fill(b: u8, k: usize, out: &mut [u8], n: usize) -> usize
    requires { n + k ≤ length out.old }
    ensures added { Adds out.old n (replicate k b) out.new result }
{
    out[n..n + k].fill(b);
    n + k
}

// Adds a part.
pub fn add(p: &[u8], out: &mut [u8], n: usize) -> usize
    requires { n + length p.now ≤ length out.old }
    ensures added { Adds out.old n p.now out.new result }
{
    out[n..n + p.len()].copy_from_slice(p);
    n + p.len()
}

// Adds the digits of v: those before the last, then the last. It calls itself, since a loop would meet the last digit first.
pub fn digits(v: u64, out: &mut [u8], n: usize) -> usize
    requires { n + length (decimal_of v) ≤ length out.old }
    ensures added { Adds out.old n (decimal_of v) out.new result }
{
    if v < 10 {
        return byte(b'0' + v as u8, out, n);
    }
    let m = digits(v / 10, out, n);
    byte(b'0' + (v % 10) as u8, out, m)
}

// Adds a blank and the digits of v.
pub fn number(v: u64, out: &mut [u8], n: usize) -> usize
    requires { n + 21 ≤ length out.old }
    ensures added { Adds out.old n (32 ∷ decimal_of v) out.new result }
    ensures small { result ≤ n + 21 }
{
    let m = byte(b' ', out, n);
    digits(v, out, m)
}

// Puts a part into the first places of out, where it has room. It is a loop, since the slices' own copy calls `memmove`, which an archive
// would then need from its host.
#[tactic(auto, unfolding(crate::specs::Buffer::over, rules::specs::Places::pick))]
pub fn place(p: &[u8], out: &mut [u8])
    ensures written { out.new ≡ over p.now out.old }
{
    if p.len() <= out.len() {
        for k in 0..p.len() {
            out[k] = p[k];
        }
    }
}
