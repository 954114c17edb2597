// Numbers read fast, for lines that the form check has passed: no column is tested, and blanks and digits have one low half on each medium.
ghost use Rattle.std.specs.Prelude.{◌≡◌, ◌+◌, ◌%◌, ◌≤◌, ◌<◌};
ghost use Rattle.rules.specs.Text.{cols};
ghost use Rattle.fields.specs.Figures.{figures, low_index};

// The low half of a byte: 0 of a blank, the value of a digit.
fn low(b: u8) -> u64
    ensures value { result ≡ b % 16 }
{
    u64::from(b % 16)
}

// The number in columns a to b, at most 8. The range is `a..b + 1`: one with its end runs with a flag beside the count.
pub fn number(l: &[u8; 80], a: usize, b: usize) -> u64
    requires { (1 ≤ a) × ((b ≤ 80) × (b < a + 8)) }
    ensures value { result ≡ figures (cols l.now a b) }
    ensures small { result < 4294967296 }
{
    let mut v: u64 = 0;
    for c in a..b + 1 {
        v = 10 * v + low(l[c - 1]);
    }
    v
}

// The index in column a.
#[tactic(auto, using(crate::proofs::LowHalves::index_one, crate::proofs::LowHalves::index_low))]
pub fn index(l: &[u8; 80], a: usize) -> u64
    requires { (1 ≤ a) × (a ≤ 80) }
    ensures value { result ≡ low_index (cols l.now a a) }
    ensures small { result < 16 }
{
    let d = low(l[a - 1]);
    if d == 0 {
        return 1;
    }
    d
}
