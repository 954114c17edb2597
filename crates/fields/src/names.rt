// Names and tapes as numbers: all columns count, and the numbers compare as the bytes do.
ghost use Rattle.std.specs.Prelude.{◌≡◌, ◌&&◌, ℕ, ◌+◌, ◌≤◌, ◌<◌, eqb};
ghost use Rattle.rules.specs.Text.{cols};
ghost use Rattle.rules.specs.Names.{text};
ghost use Rattle.fields.specs.Packed.{packed, name_of};

use crate::Name;

// Columns a to b, at most 8, as one number.
#[tactic(auto, using(crate::proofs::Walks::packed_walk))]
pub fn pack(l: &[u8; 80], a: usize, b: usize) -> u64
    requires { (1 ≤ a) × ((b ≤ 80) × (b < a + 8)) }
    ensures value { result ≡ packed (cols l.now a b) }
{
    let mut v: u64 = 0;
    for c in a..b + 1 {
        v = 256 * v + u64::from(l[c - 1]);
    }
    v
}

// The line name in the 16 columns from a on.
#[tactic(auto, using(crate::proofs::Packed::name_hi, crate::proofs::Packed::name_lo))]
pub fn name(l: &[u8; 80], a: usize) -> Name
    requires { (1 ≤ a) × (a ≤ 65) }
    ensures value { result ≡ name_of (text (cols l.now a (a + 15))) }
{
    Name {
        hi: pack(l, a, a + 7),
        lo: pack(l, a + 8, a + 15),
    }
}

// Two names are the same: both of their numbers, and so all columns.
pub fn same_name(m: Name, n: Name) -> bool
    ensures value { result ≡ (eqb m.hi n.hi && eqb m.lo n.lo) }
{
    m == n
}
