// Whether the rule of a field allows a value.
ghost use Rattle.std.specs.Prelude.{◌≡◌, true, ℕ, ◌≤◌, ℤ};
ghost use Rattle.rules.specs.Text.{col};
ghost use Rattle.rules.specs.Disc.{printable as is_printable};
ghost use Rattle.rules.specs.Kinds.{is_code, starts_non_blank};
ghost use Rattle.rules.specs.Spelled.{up_from, from_to, is_clock, is_depth, of_natural, allows_number, allows_text, allows as allows_of};
ghost use Rattle.rules.specs.Writer.{width_of};
ghost use Rattle.fields.specs.Paper.{kind, sized};
ghost use Rattle.fields.specs.declared.Kind.TheVariants.{Code as a_code};
ghost use Rattle.records.specs.Coded.{row_of};
ghost use Rattle.rules.specs.Carried.{bytes_of};
ghost use Rattle.writer.specs.Coded.{text_of, value_of};
ghost use Rattle.writer.specs.Texts.{all_printed};

use crate::rows;
use crate::values::Value;
use fields::{Kind, Name, families};
use records::table::Row;

// From a to b.
#[tactic(auto, using(crate::proofs::Signed::signs))]
fn up_from(a: u64, b: u64, n: i64) -> bool
    ensures value { result ≡ up_from a b n }
{
    !n.is_negative() && a <= n.unsigned_abs() && n.unsigned_abs() <= b
}

// From -a to b.
#[tactic(auto, using(crate::proofs::Signed::signs))]
fn from_to(a: u64, b: u64, n: i64) -> bool
    ensures value { result ≡ from_to a b n }
{
    if n.is_negative() {
        n.unsigned_abs() <= a
    } else {
        n.unsigned_abs() <= b
    }
}

// A time of day: two digits of hours, of minutes and of seconds.
#[tactic(auto, unfolding(rules::specs::Spelled::is_clock))]
fn is_clock(n: u64) -> bool
    ensures value { result ≡ is_clock n }
{
    n / 10000 <= 23 && n / 100 % 100 <= 59 && n % 100 <= 59
}

// A depth of water in tenths: to 99.9, or whole metres to 999.
#[tactic(auto, unfolding(rules::specs::Spelled::is_depth))]
fn is_depth(n: u64) -> bool
    ensures value { result ≡ is_depth n }
{
    n <= 999 || n <= 9990 && n % 10 == 0
}

// A number, by the rule of its field.
#[tactic(auto, using(crate::proofs::Signed::signs), unfolding(rules::specs::Spelled::allows_number))]
fn number(k: Kind, n: i64) -> bool
    ensures value { result ≡ allows_number (kind k) n }
{
    match k {
        Kind::Coordinate => true,
        Kind::Index => up_from(1, 9, n),
        Kind::WaterDepth => !n.is_negative() && is_depth(n.unsigned_abs()),
        Kind::Time => !n.is_negative() && is_clock(n.unsigned_abs()),
        Kind::WholeNumber(a, b) => up_from(a, b, n),
        Kind::DecimalNumber(b) => up_from(0, b, n),
        Kind::SignedNumber(a, b) | Kind::SignedDecimal(a, b) => from_to(a, b, n),
        Kind::StartsNonBlank | Kind::DigitsOnly | Kind::Code(_) => false,
    }
}

#[tactic(auto, unfolding(rules::specs::Disc::printable))]
fn printable(b: u64) -> bool
    ensures value { result ≡ is_printable b }
{
    32 <= b && b <= 126
}

// Each of the n bytes of a number is printable.
#[tactic(auto, using(crate::proofs::Printed::bytes_by_one))]
fn printed(n: usize, v: u64) -> bool
    requires { 1 ≤ n }
    ensures value { result ≡ all_printed (bytes_of n v) }
{
    if n == 1 {
        printable(v)
    } else {
        printable(v % 256) && printed(n - 1, v / 256)
    }
}

// The first of the n bytes of a number.
#[tactic(auto, using(crate::proofs::Printed::bytes_by_one))]
fn first(n: usize, v: u64) -> u64
    requires { 1 ≤ n }
    ensures value { result ≡ col (bytes_of n v) 1 }
{
    if n == 1 { v } else { first(n - 1, v / 256) }
}

// Printable bytes, of which the first is not blank.
#[tactic(auto, unfolding(rules::specs::Spelled::allows_text))]
fn begins(n: usize, v: u64) -> bool
    requires { 1 ≤ n }
    ensures value { result ≡ allows_text starts_non_blank (bytes_of n v) }
{
    printed(n, v) && first(n, v) != u64::from(b' ')
}

// The same of w bytes from two numbers.
#[tactic(auto, using(crate::proofs::Printed::names))]
fn name(w: usize, m: Name) -> bool
    requires { 1 ≤ w }
    ensures value { result ≡ allows_text starts_non_blank (text_of w m.hi m.lo) }
{
    if w <= 8 {
        begins(w, m.lo)
    } else {
        begins(w - 8, m.hi) && printed(8, m.lo)
    }
}

// A code of file i.
#[tactic(auto, using(crate::proofs::Printed::code_wide, crate::proofs::Printed::code_two))]
fn code(i: u8, v: u64) -> bool
    ensures value { result ≡ is_code i (bytes_of 2 v) }
{
    v <= 65535 && families::is_code(i, (v / 256) as u8, (v % 256) as u8)
}

// A text of w columns, by the rule of its field.
#[tactic(auto, using(crate::proofs::Ruled::two_text), unfolding(rules::specs::Spelled::allows_text))]
fn text(k: Kind, w: usize, m: Name) -> bool
    requires le_w { 1 ≤ w }
    requires by_index { (i : ℕ) → k ≡ a_code i → w ≡ 2 }
    ensures value { result ≡ allows_text (kind k) (text_of w m.hi m.lo) }
{
    match k {
        Kind::StartsNonBlank => name(w, m),
        Kind::Code(i) => code(i, m.lo),
        Kind::DigitsOnly | Kind::Coordinate | Kind::Index | Kind::WaterDepth | Kind::Time => false,
        Kind::WholeNumber(_, _) | Kind::SignedNumber(_, _) => false,
        Kind::SignedDecimal(_, _) | Kind::DecimalNumber(_) => false,
    }
}

// The field's rule allows the value.
#[tactic(auto, using(crate::proofs::Ruled::fields), unfolding(rules::specs::Spelled::allows))]
pub fn allows(w: Row, v: Option<Value>) -> bool
    requires { sized w.kind w.first w.last ≡ true }
    ensures value { result ≡ allows_of (row_of w).kind (value_of (width_of (row_of w).columns) v) }
{
    match v {
        None => w.blank,
        Some(Value::Text(m)) => !w.blank && text(w.kind, rows::width(w), m),
        Some(Value::Number(n)) => number(w.kind, n),
    }
}
