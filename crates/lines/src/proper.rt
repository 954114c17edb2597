// The bytes of a line of the disc form.
ghost use Rattle.std.specs.Prelude.{◌≡◌, ℕ, ◌+◌, ◌<◌, ◌≤◌, true, length, slice_index};
ghost use Rattle.rules.specs.Disc.{byte_fits};
ghost use Rattle.rules.specs.MeetsDisc.{Proper};
ghost use Rattle.lines.specs.Reading.{Printed};

// What a byte in column c of the 82 may be.
pub fn byte_fits(c: usize, b: u8) -> bool
    ensures value { result ≡ byte_fits c b }
{
    if c <= 80 {
        32 <= b && b <= 126
    } else if c == 81 {
        b == 13
    } else {
        b == 10
    }
}

// The greater of m and of b less 32, around 256: at most 94 where b is printable.
fn greater(m: u8, b: u8) -> u8
    ensures value { (m ≤ result) × (result ≤ 94 → Printed b) }
{
    m.max(std::num::wrapping_sub_u8(b, 32))
}

// The 80 bytes from `at` on are printable. It looks at all of them and keeps the greatest, so that they are compared many at a time.
fn all_printed(f: &[u8], at: usize) -> bool
    requires { at + 80 ≤ length f.now }
    ensures value { result ≡ true → (c : ℕ) → c < 80 → Printed (slice_index f.now (at + c)) }
{
    let columns = &f[at..at + 80];
    let mut most = 0;
    for b in columns {
        most = greater(most, *b);
    }
    most <= 94
}

// The 82 bytes from `at` on are a line of the disc form.
pub fn all_proper(f: &[u8], at: usize) -> bool
    requires { at + 82 ≤ length f.now }
    ensures value { result ≡ true → (c : ℕ) → c < 82 → Proper (c + 1) (slice_index f.now (at + c)) }
{
    f[at + 80] == 13 && f[at + 81] == 10 && all_printed(f, at)
}
