#![tactic(auto)]
// All traces of an accepted set as rows of sixteen bytes, in the order of X, line by line and channel by channel: the rows from one number on
// go into the places of a lent slice. Two arrays are its own: the receivers of R in their order, and which of them are killed.
ghost use Rattle.std.specs.Prelude.{◌≡◌, suc, ◌/◌, ◌<◌, min, ◌-◌, List, ℕ, length};
ghost use Rattle.rules.specs.TraceRows.{traces_above, rows_over};
ghost use Rattle.lines.specs.Reading.{sheet_of};
ghost use Rattle.dead.specs.Dead.{Lines};
ghost use Rattle.spread.specs.Asked.{Accepted};
ghost use Rattle.rows.specs.Filled.{Marked, Ready, filled, places_to};

use keys::Keyed;
use lines::Reading;
use part::Part;
use records::{cover, relation};

mod part;
mod row;

// How the files are read, and the number of the first trace that is wanted.
#[derive(Clone, Copy, Debug, PartialEq, Eq)]
pub struct Wanted {
    pub how: Reading,
    pub first: u64,
}

// A line of X, from 0, and how many traces the lines above it have.
#[derive(Clone, Copy, Debug, PartialEq, Eq)]
struct Line {
    k: usize,
    above: u64,
}

// Marks the killed receivers: t holds 1 at the row of each, else 0.
fn mark_killed(how: Reading, r: &[u8], o: &[u32], t: &mut [u32])
    requires { Lines (sheet_of how r.now) o.now t.old }
    ensures written { Marked (sheet_of how r.now) o.now t.new
        × (length t.new ≡ length t.old) }
{
    for j in 0..o.len() {
        t[j] = dead::one_if_killed(how, r, o[j] as usize);
    }
}

// Of so many places, those whose traces come before trace n.
fn places_to(n: u64, first: u64, places: usize) -> usize
    ensures value { result ≡ min (n - first) places }
{
    n.saturating_sub(first).min(places as u64) as usize
}

// Puts the rows of line l as far as they are wanted and have places, and says how many traces the lines above the next one have.
fn put_line(w: Wanted, r: &[u8], o: &[u32], t: &[u32], x: &[u8], l: Line, places: &mut [u8]) -> u64
    requires { Ready (sheet_of w.how r.now) o.now t.now (sheet_of w.how x.now)
        × ((l.k < (sheet_of w.how x.now).count) × (l.above ≡ traces_above (sheet_of w.how x.now) l.k)) }
    ensures above { result ≡ traces_above (sheet_of w.how x.now) (suc l.k) }
    ensures written { (d : List ℕ)
        → places.old ≡ filled (sheet_of w.how r.now) (sheet_of w.how x.now) w.first
        (places_to (sheet_of w.how x.now) w.first l.k d) d
        → places.new ≡ filled (sheet_of w.how r.now) (sheet_of w.how x.now) w.first
        (places_to (sheet_of w.how x.now) w.first (suc l.k) d) d }
{
    let how = w.how;
    let k = l.k;
    if !keys::takes(Keyed::records(how), x, k) {
        return l.above;
    }
    let q = relation::reach_of(&lines::line_of(how, x, k));
    let next = l.above + cover::traces(q);
    let m = places.len() / 16;
    let place = places_to(l.above, w.first, m);
    let end = places_to(next, w.first, m);
    if place < end {
        let channel = q.from as u64 + (w.first + place as u64 - l.above);
        let p = Part {
            line: k as u32 + 1,
            channel: channel as usize,
            place,
            end,
        };
        part::put(q, o, t, receivers::first_row(how, r, o, x, k), p, places);
    }
    next
}

// Puts the rows of all lines.
fn put_all(w: Wanted, r: &[u8], o: &[u32], t: &[u32], x: &[u8], places: &mut [u8])
    requires { Ready (sheet_of w.how r.now) o.now t.now (sheet_of w.how x.now) }
    ensures written { places.new
        ≡ rows_over (sheet_of w.how r.now) (sheet_of w.how x.now) w.first places.old }
{
    let mut above: u64 = 0;
    for k in 0..lines::line_count(w.how, x) {
        above = put_line(w, r, o, t, x, Line { k, above }, places);
    }
}

// Puts the rows of an accepted set, from the trace that is wanted on; places after the last trace and bytes that are no whole place stay.
pub fn fill(w: Wanted, r: &[u8], x: &[u8], places: &mut [u8])
    requires { Accepted (sheet_of w.how r.now) (sheet_of w.how x.now) }
    ensures written { places.new
        ≡ rows_over (sheet_of w.how r.now) (sheet_of w.how x.now) w.first places.old }
{
    let how = w.how;
    let mut o = [0u32; lines::MOST_LINES];
    let mut t = [0u32; lines::MOST_LINES];
    let m = order::in_order(Keyed::receivers(how), r, &mut o, &mut t);
    mark_killed(how, r, &o[..m], &mut t);
    put_all(w, r, &o[..m], &t, x, places);
}
