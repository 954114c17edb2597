#![tactic(auto, unfolding(rules::specs::Kinds::fits))]
// The rules of fields, one function a rule, over the columns and the rule's own numbers.
ghost use Rattle.std.specs.Prelude.{◌≡◌, ◌||◌, ℕ, ◌+◌, ◌≤◌, ◌<◌, eqb};
ghost use Rattle.std.specs.List.{list_all};
ghost use Rattle.std.specs.Char.{is_ascii_digit};
ghost use Rattle.rules.specs.Text.{cols};
ghost use Rattle.rules.specs.Kinds.{fits as fits_kind, digit1 as is_digit1};
ghost use Rattle.rules.specs.Kinds.{starts_non_blank, digits_only, coordinate as a_coordinate, index as an_index, water_depth, time as a_time};
ghost use Rattle.rules.specs.Kinds.{whole_number, signed_number, signed_decimal, decimal_number, code as a_code};

use crate::{bytes, families, numbers, ranges};

// The first column, a, is not blank.
#[tactic(auto, using(crate::proofs::Codes::first_column), unfolding(rules::specs::Kinds::fits))]
pub fn starts_non_blank(l: &[u8; 80], a: usize) -> bool
    requires { (1 ≤ a) × (a ≤ 80) }
    ensures value { (b : ℕ) → a ≤ b → result ≡ fits_kind starts_non_blank (cols l.now a b) }
{
    l[a - 1] != b' '
}

fn all_digits(columns: &[u8]) -> bool
    ensures value { result ≡ list_all is_ascii_digit columns.now }
{
    columns.iter().all(|d| d.is_ascii_digit())
}

// Digits alone.
#[tactic(auto, using(crate::proofs::Chains::digits_by_test), unfolding(rules::specs::Kinds::fits))]
pub fn digits_only(l: &[u8; 80], a: usize, b: usize) -> bool
    requires { (1 ≤ a) × (b ≤ 80) }
    ensures value { result ≡ fits_kind digits_only (cols l.now a b) }
{
    all_digits(bytes::columns(l, a, b))
}

// A decimal with no range but its columns.
pub fn coordinate(l: &[u8; 80], a: usize, b: usize) -> bool
    requires { (1 ≤ a) × ((b ≤ 80) × (b < a + 16)) }
    ensures value { result ≡ fits_kind a_coordinate (cols l.now a b) }
{
    ranges::formed(numbers::signed_decimal(l, a, b))
}

// 1-9, or blank.
fn index_byte(b: u8) -> bool
    ensures value { result ≡ (eqb b 32 || is_digit1 b) }
{
    b == b' ' || families::digit1(b)
}

// An index in column a: 1-9, or blank.
#[tactic(auto, using(crate::proofs::Codes::first_column), unfolding(rules::specs::Kinds::fits))]
pub fn index(l: &[u8; 80], a: usize) -> bool
    requires { (1 ≤ a) × (a ≤ 80) }
    ensures value { (b : ℕ) → a ≤ b → result ≡ fits_kind an_index (cols l.now a b) }
{
    index_byte(l[a - 1])
}

// A decimal, 0 to 99.9, or whole metres, 0 to 999.
pub fn water_depth(l: &[u8; 80], a: usize, b: usize) -> bool
    requires { (1 ≤ a) × ((b ≤ 80) × (b < a + 16)) }
    ensures value { result ≡ fits_kind water_depth (cols l.now a b) }
{
    ranges::formed(numbers::water(l, a, b))
}

// Six digits from column a on, 000000 to 235959, minutes and seconds below 60.
#[tactic(auto, using(crate::proofs::Codes::time_is), unfolding(rules::specs::Kinds::fits))]
pub fn time(l: &[u8; 80], a: usize) -> bool
    requires { (1 ≤ a) × (a ≤ 75) }
    ensures value { result ≡ fits_kind a_time (cols l.now a (a + 5)) }
{
    ranges::between(0, 23, numbers::digits(l, a, a + 1))
        && ranges::between(0, 59, numbers::digits(l, a + 2, a + 3))
        && ranges::between(0, 59, numbers::digits(l, a + 4, a + 5))
}

// A whole number, m to n.
pub fn whole_number(m: u64, n: u64, l: &[u8; 80], a: usize, b: usize) -> bool
    requires { (1 ≤ a) × ((b ≤ 80) × (b < a + 16)) }
    ensures value { result ≡ fits_kind (whole_number m n) (cols l.now a b) }
{
    ranges::between(m, n, numbers::whole(l, a, b))
}

// A whole number, -m to n.
pub fn signed_number(m: u64, n: u64, l: &[u8; 80], a: usize, b: usize) -> bool
    requires { (1 ≤ a) × ((b ≤ 80) × (b < a + 16)) }
    ensures value { result ≡ fits_kind (signed_number m n) (cols l.now a b) }
{
    ranges::within(m, n, numbers::signed(l, a, b))
}

// A decimal, -m to n tenths.
pub fn signed_decimal(m: u64, n: u64, l: &[u8; 80], a: usize, b: usize) -> bool
    requires { (1 ≤ a) × ((b ≤ 80) × (b < a + 16)) }
    ensures value { result ≡ fits_kind (signed_decimal m n) (cols l.now a b) }
{
    ranges::within(m, n, numbers::signed_decimal(l, a, b))
}

// A decimal, 0 to n tenths.
pub fn decimal_number(n: u64, l: &[u8; 80], a: usize, b: usize) -> bool
    requires { (1 ≤ a) × ((b ≤ 80) × (b < a + 16)) }
    ensures value { result ≡ fits_kind (decimal_number n) (cols l.now a b) }
{
    ranges::between(0, n, numbers::decimal(l, a, b))
}

// A point code of file i in the two columns from a on.
#[tactic(auto, using(crate::proofs::Codes::two_columns), unfolding(rules::specs::Kinds::fits))]
pub fn code(i: u8, l: &[u8; 80], a: usize) -> bool
    requires { (1 ≤ a) × (a ≤ 79) }
    ensures value { result ≡ fits_kind (a_code i) (cols l.now a (a + 1)) }
{
    families::is_code(i, l[a - 1], l[a])
}
