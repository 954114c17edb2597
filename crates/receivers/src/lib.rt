#![tactic(auto, unfolding(crate::specs::Rows::is_row))]
// Receivers in the order of name, index and number: the receivers of a relation line are neighbours there. o holds the lines of R in that
// order; a place of it is a row. 18 takes two looks: the row of the lowest receiver, and the row of the highest, as far behind it as their numbers.
ghost use Rattle.std.specs.Prelude.{◌≡◌, ◌<◌, length};
ghost use Rattle.rules.specs.Places.{least};
ghost use Rattle.rules.specs.Relations.{reach_at};
ghost use Rattle.rules.specs.Order.{receivers_there};
ghost use Rattle.lines.specs.Reading.{sheet_of};
ghost use Rattle.form.specs.Known.{Known};
ghost use Rattle.keys.specs.Held.{RelationLine, KnownReceivers};
ghost use Rattle.receivers.specs.Rows.{Rows, is_row as is_row_of, not_below, row_of, first_row, FirstAt};

use fields::figures;
use keys::{Key, Keyed};
use lines::Reading;

// Row e has the key y.
fn is_row(how: Reading, r: &[u8], o: &[u32], e: usize, y: Key) -> bool
    requires { e < length o.now }
    ensures value { result ≡ is_row_of (sheet_of how r.now) o.now y e }
{
    keys::is_at(Keyed::receivers(how), r, o[e] as usize, y)
}

// Row e is not below the key y.
#[tactic(auto, unfolding(crate::specs::Rows::not_below))]
fn not_below(how: Reading, r: &[u8], o: &[u32], e: usize, y: Key) -> bool
    requires { e < length o.now }
    ensures value { result ≡ not_below (sheet_of how r.now) o.now y e }
{
    !keys::below(Keyed::receivers(how), r, o[e] as usize, y, false)
}

// The first row that is not below y, by halves; the number of rows where all are. It is a loop: the slices' own `partition_point` goes on
// where one row is left, and takes half as long again where rows are few.
fn first_from(how: Reading, r: &[u8], o: &[u32], y: Key) -> usize
    requires { KnownReceivers (sheet_of how r.now) × Rows (sheet_of how r.now) o.now }
    ensures value { result ≡ least (length o.now) (not_below (sheet_of how r.now) o.now y) }
{
    let mut low = 0;
    let mut high = o.len();
    while low < high {
        let mid = low + (high - low) / 2;
        if not_below(how, r, o, mid, y) {
            high = mid;
        } else {
            low = mid + 1;
        }
    }
    low
}

// The row of the receiver with the key y; the number of rows where there is none, as `least` of the rules has it.
fn row_of(how: Reading, r: &[u8], o: &[u32], y: Key) -> usize
    requires { KnownReceivers (sheet_of how r.now) × Rows (sheet_of how r.now) o.now }
    ensures value { result ≡ row_of (sheet_of how r.now) o.now y }
{
    let e = first_from(how, r, o, y);
    if e != o.len() && is_row(how, r, o, e, y) {
        e
    } else {
        o.len()
    }
}

// The row of the lowest receiver of relation line k; the number of rows where there is none.
pub fn first_row(how: Reading, r: &[u8], o: &[u32], x: &[u8], k: usize) -> usize
    requires { (KnownReceivers (sheet_of how r.now) × Rows (sheet_of how r.now) o.now)
        × (Known 3 (sheet_of how x.now) × RelationLine (sheet_of how x.now) k) }
    ensures value { result ≡ first_row (sheet_of how r.now) o.now (sheet_of how x.now) k }
{
    let l = lines::own_of(how, x, k);
    let low = figures::number(&l, 64, 71).min(figures::number(&l, 72, 79));
    row_of(how, r, o, keys::receiver_key(how, x, k, low as u32))
}

// 18 of relation line k, whose lowest receiver stands in row e: each of its receivers is there.
pub fn all_there(how: Reading, r: &[u8], o: &[u32], x: &[u8], k: usize, e: usize) -> bool
    requires { FirstAt (sheet_of how r.now) o.now (sheet_of how x.now) k e }
    ensures value { result ≡ receivers_there (sheet_of how r.now) (reach_at (sheet_of how x.now) k) }
{
    let l = lines::own_of(how, x, k);
    let from = figures::number(&l, 64, 71);
    let to = figures::number(&l, 72, 79);
    let high = from.max(to);
    let d = (high - from.min(to)) as usize;
    d < o.len() - e && is_row(how, r, o, e + d, keys::receiver_key(how, x, k, high as u32))
}
