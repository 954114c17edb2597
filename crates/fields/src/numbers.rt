// Numbers right justified in columns a to b: blanks, an optional minus, digits, and in one spelling of a decimal a point and one digit.
ghost use Rattle.std.specs.Prelude.{◌≡◌, ℕ, ◌+◌, ◌^◌, ◌≤◌, ◌<◌, true, Some};
ghost use Rattle.std.specs.Option.{IfSome};
ghost use Rattle.rules.specs.Text.{cols};
ghost use Rattle.rules.specs.Numbers.{digits as digits_of, whole as whole_of, signed as signed_of, decimal as decimal_of, then as then_of};
ghost use Rattle.rules.specs.Numbers.{pointed as pointed_in, tenths as spelled_of};
ghost use Rattle.rules.specs.Numbers.{negative as negative_of, size as size_of, value as value_of};
ghost use Rattle.rules.specs.Kinds.{water as water_of};
ghost use Rattle.fields.specs.Paper.{number};
ghost use Rattle.fields.specs.Ink.{ink_from, point_digit, tenths_of};

use crate::{Number, ranges};

// The first column that is not blank.
#[tactic(auto, using(crate::proofs::Walks::ink_walk))]
fn ink(l: &[u8; 80], a: usize, b: usize) -> Option<usize>
    requires { (1 ≤ a) × (b ≤ 80) }
    ensures value { result ≡ ink_from a (cols l.now a b) }
    ensures within { IfSome result (λ c. (a ≤ c) × (c ≤ b)) }
{
    for c in a..b + 1 {
        if l[c - 1] != b' ' {
            return Some(c);
        }
    }
    None
}

// Digits to the last column, at least one.
#[tactic(auto, using(crate::proofs::Walks::digits_walk))]
pub fn digits(l: &[u8; 80], a: usize, b: usize) -> Option<Number>
    requires { (1 ≤ a) × ((b ≤ 80) × (b < a + 16)) }
    ensures value { number result ≡ digits_of (cols l.now a b) }
{
    if b < a {
        return None;
    }
    let mut v: u64 = 0;
    for c in a..b + 1 {
        let d = l[c - 1];
        if !d.is_ascii_digit() {
            return None;
        }
        v = 10 * v + u64::from(d - b'0');
    }
    Some(Number::Plus(v))
}

// A whole number: blanks, then digits to the last column.
#[tactic(auto, using(crate::proofs::Justified::signs), unfolding(rules::specs::Numbers::whole))]
pub fn whole(l: &[u8; 80], a: usize, b: usize) -> Option<Number>
    requires { (1 ≤ a) × ((b ≤ 80) × (b < a + 16)) }
    ensures value { number result ≡ whole_of (cols l.now a b) }
{
    digits(l, ink(l, a, b)?, b)
}

// With a minus before it, where it has none.
#[tactic(auto, unfolding(rules::specs::Numbers::negative))]
fn negative(n: Number) -> Option<Number>
    ensures value { number result ≡ negative_of (number (Some n)) }
{
    match n {
        Number::Plus(v) => Some(Number::Minus(v)),
        Number::Minus(_) => None,
    }
}

// A whole number with an optional minus before its digits.
#[tactic(auto, using(crate::proofs::Justified::signs), unfolding(rules::specs::Numbers::signed, rules::specs::Numbers::negative))]
pub fn signed(l: &[u8; 80], a: usize, b: usize) -> Option<Number>
    requires { (1 ≤ a) × ((b ≤ 80) × (b < a + 16)) }
    ensures value { number result ≡ signed_of (cols l.now a b) }
{
    let c = ink(l, a, b)?;
    if l[c - 1] == b'-' {
        return negative(digits(l, c + 1, b)?);
    }
    digits(l, c, b)
}

// A number and one digit more.
#[tactic(auto, unfolding(rules::specs::Numbers::then, rules::specs::Numbers::size))]
fn then(n: Number, d: u8) -> Number
    requires { (size_of (number (Some n)) < 10 ^ 16) × (d ≤ 9) }
    ensures value { number (Some result) ≡ then_of (number (Some n)) d }
{
    match n {
        Number::Plus(v) => Number::Plus(10 * v + u64::from(d)),
        Number::Minus(v) => Number::Minus(10 * v + u64::from(d)),
    }
}

// A point in the last column but one, and a digit in the last, b.
#[tactic(auto, unfolding(crate::specs::Ink::point_digit, rules::specs::Numbers::digit))]
fn point_digit(l: &[u8; 80], b: usize) -> bool
    requires { (2 ≤ b) × (b ≤ 80) }
    ensures value { result ≡ point_digit l.now b }
{
    l[b - 2] == b'.' && l[b - 1].is_ascii_digit()
}

// The number n before the point, and the digit after it.
#[tactic(auto, using(crate::proofs::Justified::point_digit_is), unfolding(crate::specs::Ink::tenths_of, rules::specs::Places::pick))]
fn tenths(l: &[u8; 80], b: usize, n: Number) -> Option<Number>
    requires { (2 ≤ b) × ((b ≤ 80) × (size_of (number (Some n)) < 10 ^ 16)) }
    ensures value { number result ≡ tenths_of l.now b (number (Some n)) }
{
    if !point_digit(l, b) {
        return None;
    }
    Some(then(n, l[b - 1] - b'0'))
}

// A number, a point and one digit, in tenths.
#[tactic(auto, using(crate::proofs::Justified::decimals))]
fn pointed(l: &[u8; 80], a: usize, b: usize) -> Option<Number>
    requires { (1 ≤ a) × ((b ≤ 80) × (b < a + 16)) }
    ensures value { number result ≡ decimal_of whole_of (cols l.now a b) }
{
    if b <= a {
        return None;
    }
    tenths(l, b, whole(l, a, b - 2)?)
}

// The same with an optional minus. The reader as an argument would take a longer contract than both functions have.
#[tactic(auto, using(crate::proofs::Justified::decimals))]
fn signed_pointed(l: &[u8; 80], a: usize, b: usize) -> Option<Number>
    requires { (1 ≤ a) × ((b ≤ 80) × (b < a + 16)) }
    ensures value { number result ≡ decimal_of signed_of (cols l.now a b) }
{
    if b <= a {
        return None;
    }
    tenths(l, b, signed(l, a, b - 2)?)
}

// A point stands in the last column but one.
#[tactic(auto, using(crate::proofs::Justified::pointed_is))]
fn is_pointed(l: &[u8; 80], a: usize, b: usize) -> bool
    requires { (1 ≤ a) × (b ≤ 80) }
    ensures value { result ≡ pointed_in (cols l.now a b) }
{
    a < b && l[b - 2] == b'.'
}

// A decimal that has no sign, in tenths: with a point and one digit after it, or digits alone, which count tenths.
#[tactic(auto, unfolding(rules::specs::Numbers::tenths, rules::specs::Places::pick))]
pub fn decimal(l: &[u8; 80], a: usize, b: usize) -> Option<Number>
    requires { (1 ≤ a) × ((b ≤ 80) × (b < a + 16)) }
    ensures value { number result ≡ spelled_of whole_of (cols l.now a b) }
{
    if is_pointed(l, a, b) {
        return pointed(l, a, b);
    }
    whole(l, a, b)
}

// The same with an optional minus.
#[tactic(auto, unfolding(rules::specs::Numbers::tenths, rules::specs::Places::pick))]
pub fn signed_decimal(l: &[u8; 80], a: usize, b: usize) -> Option<Number>
    requires { (1 ≤ a) × ((b ≤ 80) × (b < a + 16)) }
    ensures value { number result ≡ spelled_of signed_of (cols l.now a b) }
{
    if is_pointed(l, a, b) {
        return signed_pointed(l, a, b);
    }
    signed(l, a, b)
}

// Water depth in tenths: a decimal with its point, 0 to 99.9, or whole metres, 0 to 999.
#[tactic(auto, using(crate::proofs::Codes::waters), unfolding(rules::specs::Kinds::between, rules::specs::Numbers::then))]
pub fn water(l: &[u8; 80], a: usize, b: usize) -> Option<Number>
    requires { (1 ≤ a) × ((b ≤ 80) × (b < a + 16)) }
    ensures value { number result ≡ water_of (cols l.now a b) }
{
    let t = pointed(l, a, b);
    if ranges::between(0, 999, t) {
        return t;
    }
    let m = whole(l, a, b)?;
    if ranges::between(0, 999, Some(m)) {
        return Some(then(m, 0));
    }
    None
}
