#![tactic(auto)]
// Fields: what columns a to b of a line hold, each read once over the columns and the width, and the rules of fields.
// Columns count from 1 and are given as the paper's two, first and last: a slice at each call would begin one below them.
// A number is its sign and its size; the signed value is made once, where it is kept.
ghost use Rattle.std.specs.Prelude.{◌≡◌};
ghost use Rattle.rules.specs.Text.{cols};
ghost use Rattle.rules.specs.Kinds.{fits as fits_kind};
ghost use Rattle.fields.specs.Paper.{kind, Sized};

pub mod bytes;
pub mod families;
pub mod figures;
pub mod kinds;
pub mod names;
pub mod numbers;
pub mod ranges;

// A sign and a size: minus zero stands apart from zero.
#[derive(Clone, Copy, Debug, PartialEq, Eq)]
pub enum Number {
    Plus(u64),
    Minus(u64),
}

// A line name: all its 16 columns, as two numbers of 8 bytes, which is how the C interface holds it.
#[derive(Clone, Copy, Debug, PartialEq, Eq)]
pub struct Name {
    pub hi: u64,
    pub lo: u64,
}

// The rule of a field, as the paper's tables give it beside the columns.
#[derive(Clone, Copy, Debug, PartialEq, Eq)]
pub enum Kind {
    StartsNonBlank,
    DigitsOnly,
    Coordinate,
    Index,
    WaterDepth,
    Time,
    WholeNumber(u64, u64),
    SignedNumber(u64, u64),
    SignedDecimal(u64, u64),
    DecimalNumber(u64),
    Code(u8),
}

// Whether columns a to b obey the rule k.
pub fn fits(k: Kind, l: &[u8; 80], a: usize, b: usize) -> bool
    requires { Sized k a b }
    ensures value { result ≡ fits_kind (kind k) (cols l.now a b) }
{
    match k {
        Kind::StartsNonBlank => kinds::starts_non_blank(l, a),
        Kind::DigitsOnly => kinds::digits_only(l, a, b),
        Kind::Coordinate => kinds::coordinate(l, a, b),
        Kind::Index => kinds::index(l, a),
        Kind::WaterDepth => kinds::water_depth(l, a, b),
        Kind::Time => kinds::time(l, a),
        Kind::WholeNumber(m, n) => kinds::whole_number(m, n, l, a, b),
        Kind::SignedNumber(m, n) => kinds::signed_number(m, n, l, a, b),
        Kind::SignedDecimal(m, n) => kinds::signed_decimal(m, n, l, a, b),
        Kind::DecimalNumber(n) => kinds::decimal_number(n, l, a, b),
        Kind::Code(i) => kinds::code(i, l, a),
    }
}
