// The text of a value, without the blanks before it, at the start of a small buffer: digits, tenths, bytes.
ghost use Rattle.std.specs.Prelude.{◌≡◌, true, ◌++◌, ◌+◌, ◌^◌, ◌≤◌, ◌<◌, length};
ghost use Rattle.rules.specs.Figures.{decimal_of};
ghost use Rattle.rules.specs.Spelled.{padded, with_point, water_figures, spelled_as, spelled, allows};
ghost use Rattle.rules.specs.Writer.{width_of};
ghost use Rattle.fields.specs.Paper.{kind, sized};
ghost use Rattle.records.specs.Coded.{row_of};
ghost use Rattle.texts.specs.Buffer.{Adds};
ghost use Rattle.rules.specs.Carried.{bytes_of};
ghost use Rattle.writer.specs.Coded.{text_of, value_of};
ghost use Rattle.writer.specs.Texts.{sign_of, Starts, Narrow, coordinate_of};

use crate::rows;
use crate::values::Value;
use fields::{Kind, Name};
use records::table::Row;

// Adds the minus of a number below 0. Sign and size are two parameters all through: before the point of -0.5 the size is 0, and the minus stays.
fn sign(minus: bool, out: &mut [u8; 40], at: usize) -> usize
    requires { at ≤ 16 }
    ensures added { Adds out.old at (sign_of minus) out.new result }
    ensures small { result ≤ at + 1 }
{
    if minus {
        texts::byte(b'-', out, at)
    } else {
        at
    }
}

// Adds a whole number.
fn whole(minus: bool, n: u64, out: &mut [u8; 40], at: usize) -> usize
    requires { at ≤ 16 }
    ensures added { Adds out.old at (sign_of minus ++ decimal_of n) out.new result }
{
    let m = sign(minus, out, at);
    texts::digits(n, out, m)
}

// A number of tenths with its point.
fn tenths(minus: bool, n: u64, out: &mut [u8; 40]) -> usize
    ensures added { Adds out.old 0 (sign_of minus ++ with_point n) out.new result }
{
    let a = sign(minus, out, 0);
    let b = texts::digits(n / 10, out, a);
    let tail = [b'.', b'0' + (n % 10) as u8];
    texts::add(&tail, out, b)
}

// A number of tenths that goes without its point where w columns are too few for it.
fn coordinate(w: usize, minus: bool, n: u64, out: &mut [u8; 40]) -> usize
    ensures starts { Starts out.new (coordinate_of w minus n) result }
{
    let m = tenths(minus, n, out);
    if m <= w { m } else { whole(minus, n, out, 0) }
}

// A number with zeros before it, w columns in all.
fn clock(w: usize, minus: bool, n: u64, out: &mut [u8; 40]) -> usize
    requires { w ≤ 16 }
    ensures starts { Starts out.new (padded 48 w (sign_of minus ++ decimal_of n)) result }
{
    let m = whole(minus, n, out, 0);
    if w <= m {
        return m;
    }
    let a = texts::fill(b'0', w - m, out, 0);
    whole(minus, n, out, a)
}

// A depth of water in tenths: above 99.9 its metres.
fn water(minus: bool, n: u64, out: &mut [u8; 40]) -> usize
    ensures added { Adds out.old 0 (sign_of minus ++ water_figures n) out.new result }
{
    if n <= 999 {
        tenths(minus, n, out)
    } else {
        whole(minus, n / 10, out, 0)
    }
}

// A number by the rule of its field.
#[tactic(auto, using(crate::proofs::Spelling::figures), unfolding(rules::specs::Spelled::spelled_as, crate::specs::Texts::coordinate_of))]
fn figures(k: Kind, w: usize, n: i64, out: &mut [u8; 40]) -> usize
    requires { w ≤ 16 }
    ensures starts { Starts out.new (spelled_as (kind k) w n) result }
{
    let minus = n.is_negative();
    let size = n.unsigned_abs();
    match k {
        Kind::Coordinate => coordinate(w, minus, size, out),
        Kind::WaterDepth => water(minus, size, out),
        Kind::Time => clock(w, minus, size, out),
        Kind::SignedDecimal(_, _) | Kind::DecimalNumber(_) => tenths(minus, size, out),
        Kind::StartsNonBlank | Kind::DigitsOnly | Kind::Code(_) => whole(minus, size, out, 0),
        Kind::Index => whole(minus, size, out, 0),
        Kind::WholeNumber(_, _) | Kind::SignedNumber(_, _) => whole(minus, size, out, 0),
    }
}

// Adds the n bytes of a number: those before the last, then the last.
fn bytes(n: usize, v: u64, out: &mut [u8], at: usize) -> usize
    requires { (1 ≤ n) × ((at + n ≤ length out.old) × (v < 256 ^ n)) }
    ensures added { Adds out.old at (bytes_of n v) out.new result }
{
    if n <= 1 {
        return texts::byte(v as u8, out, at);
    }
    let m = bytes(n - 1, v / 256, out, at);
    texts::byte((v % 256) as u8, out, m)
}

// The w bytes of a text.
fn letters(w: usize, m: Name, out: &mut [u8; 40]) -> usize
    requires { ((1 ≤ w) × (w ≤ 16)) × Narrow w m.hi m.lo }
    ensures added { Adds out.old 0 (text_of w m.hi m.lo) out.new result }
{
    if w <= 8 {
        return bytes(w, m.lo, out, 0);
    }
    let at = bytes(w - 8, m.hi, out, 0);
    bytes(8, m.lo, out, at)
}

// The text of a value that its field's rule allows.
#[tactic(auto, using(crate::proofs::Ruled::texts), unfolding(rules::specs::Spelled::spelled))]
pub fn text(w: Row, v: Option<Value>, out: &mut [u8; 40]) -> usize
    requires last_value { sized w.kind w.first w.last ≡ true }
    requires v_value { allows (row_of w).kind (value_of (width_of (row_of w).columns) v) ≡ true }
    ensures starts { Starts out.new (spelled (row_of w).kind (width_of (row_of w).columns) (value_of (width_of (row_of w).columns) v)) result }
{
    match v {
        None => 0,
        Some(Value::Text(m)) => letters(rows::width(w), m, out),
        Some(Value::Number(n)) => figures(w.kind, rows::width(w), n, out),
    }
}
