// The record that ends a tape.
ghost use Rattle.std.specs.Prelude.{◌≡◌, ◌+◌, ◌*◌, ◌≤◌, length, take, drop};
ghost use Rattle.rules.specs.Places.{least};
ghost use Rattle.rules.specs.Tape.{tape};

// The record from `at` on has EOF in columns 1 to 3.
fn says_eof(f: &[u8], at: usize) -> bool
    requires { at + 80 ≤ length f.now }
    ensures value { result ≡ tape.ends (take 80 (drop at f.now)) }
{
    f[at..at + 3] == [197, 214, 198]
}

// The first of n records that has, or n.
pub fn first_eof(f: &[u8], n: usize) -> usize
    requires { 80 * n ≤ length f.now }
    ensures value { result ≡ least n (λ k. tape.ends (take 80 (drop (80 * k) f.now))) }
{
    for k in 0..n {
        if says_eof(f, 80 * k) {
            return k;
        }
    }
    n
}
