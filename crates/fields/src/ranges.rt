// What a number that was read says: its range, its size, its signed value.
ghost use Rattle.std.specs.Prelude.{◌≡◌, ◌^◌, ◌<◌};
ghost use Rattle.rules.specs.Numbers.{size as size_of, value as value_of};
ghost use Rattle.rules.specs.Kinds.{between as is_between, within as is_within, formed as is_formed};
ghost use Rattle.fields.specs.Paper.{number};

use crate::Number;

// From lo to hi.
#[tactic(auto, unfolding(rules::specs::Kinds::between))]
pub fn between(lo: u64, hi: u64, n: Option<Number>) -> bool
    ensures value { result ≡ is_between lo hi (number n) }
{
    matches!(n, Some(Number::Plus(v)) if lo <= v && v <= hi)
}

// From -lo to hi.
#[tactic(auto, unfolding(rules::specs::Kinds::within))]
pub fn within(lo: u64, hi: u64, n: Option<Number>) -> bool
    ensures value { result ≡ is_within lo hi (number n) }
{
    match n {
        None => false,
        Some(Number::Plus(v)) => v <= hi,
        Some(Number::Minus(v)) => v <= lo,
    }
}

#[tactic(auto, unfolding(rules::specs::Kinds::formed))]
pub fn formed(n: Option<Number>) -> bool
    ensures value { result ≡ is_formed (number n) }
{
    n.is_some()
}

// Without its sign; 0 where it is malformed.
#[tactic(auto, unfolding(rules::specs::Numbers::size))]
pub fn size(n: Option<Number>) -> u64
    ensures value { result ≡ size_of (number n) }
{
    match n {
        None => 0,
        Some(Number::Plus(v) | Number::Minus(v)) => v,
    }
}

// With its sign: -0 is 0.
#[tactic(auto, unfolding(rules::specs::Numbers::value))]
pub fn value(n: Option<Number>) -> i64
    requires { size_of (number n) < 2 ^ 62 }
    ensures value { result ≡ value_of (number n) }
{
    match n {
        None => 0,
        Some(Number::Plus(v)) => v as i64,
        Some(Number::Minus(v)) => -(v as i64),
    }
}
