#![tactic(auto)]
// The spread table of a record: its highest covered channel, and the R line and component of each channel up to it, written into
// two lent slices. One array is its own: the receivers of R in their order.
ghost use Rattle.std.specs.Prelude.{◌≡◌, ◌≤◌, length, take};
ghost use Rattle.rules.specs.Sheet.{most_lines};
ghost use Rattle.rules.specs.Relations.{reach_at};
ghost use Rattle.rules.specs.Spread.{highest_of};
ghost use Rattle.lines.specs.Reading.{sheet_of};
ghost use Rattle.form.specs.Known.{Known};
ghost use Rattle.keys.specs.Held.{KnownReceivers, RelationLine};
ghost use Rattle.receivers.specs.Rows.{Rows};
ghost use Rattle.spread.specs.Asked.{Asked, Accepted};
ghost use Rattle.spread.specs.Taken.{lines_by, components_by, filled_lines, filled_components};

use keys::Keyed;
use lines::Reading;
use place::Places;
use records::{cover, relation};

pub mod led;
pub mod place;
pub mod wanted;

// The record's highest covered channel; 0 where the record is absent.
pub fn highest(how: Reading, x: &[u8], tape: &[u8], record: u64) -> u64
    requires { Known 3 (sheet_of how x.now) × Asked tape.now «record» }
    ensures value { result ≡ highest_of (sheet_of how x.now) tape.now «record» }
{
    let w = wanted::coded(tape, record);
    let mut h: u64 = 0;
    for k in 0..lines::line_count(how, x) {
        h = h.max(wanted::upto_of(how, x, k, w));
    }
    h
}

// Writes the receivers of R in their order to the first places of o, and says how many they are. The scratch array ends with it.
fn in_order(how: Reading, r: &[u8], o: &mut [u32]) -> usize
    requires { KnownReceivers (sheet_of how r.now) × (most_lines ≤ length o.old) }
    ensures order { (result ≤ length o.new) × Rows (sheet_of how r.now) (take result o.new) }
{
    let mut p = [0u32; lines::MOST_LINES];
    order::in_order(Keyed::receivers(how), r, o, &mut p)
}

// Puts the R lines and the components of the channels of relation line k.
fn put<P: Places>(
    how: Reading,
    r: &[u8],
    o: &[u32],
    x: &[u8],
    k: usize,
    lines: &mut [P::Unit],
    components: &mut [u8],
)
    requires { (Accepted (sheet_of how r.now) (sheet_of how x.now) × Rows (sheet_of how r.now) o.now)
        × (RelationLine (sheet_of how x.now) k
        × (((reach_at (sheet_of how x.now) k).upto ≤ P.room (P.held lines.old))
        × ((reach_at (sheet_of how x.now) k).upto ≤ length components.old))) }
    ensures lines { P.held lines.new
        ≡ lines_by P.puts (sheet_of how r.now) (sheet_of how x.now) k (P.room (P.held lines.old)) (P.held lines.old) }
    ensures components { components.new
        ≡ components_by (sheet_of how x.now) k (length components.old) components.old }
{
    let q = relation::reach_of(&lines::line_of(how, x, k));
    let e = receivers::first_row(how, r, o, x, k);
    let end = q.upto as usize + 1;
    for c in q.from as usize..end {
        P::put(lines, c - 1, led::line_to(q, o, e, c) as u16);
        components[c - 1] = cover::component(q, c as u64) as u8;
    }
}

// Fills the spread table of an accepted set: place c - 1 takes the R line and the component of channel c, or 0 and 0, up to the
// record's highest covered channel; later places stay.
pub fn fill<P: Places>(
    how: Reading,
    r: &[u8],
    x: &[u8],
    tape: &[u8],
    record: u64,
    lines: &mut [P::Unit],
    components: &mut [u8],
)
    requires { (Accepted (sheet_of how r.now) (sheet_of how x.now) × Asked tape.now «record»)
        × ((highest_of (sheet_of how x.now) tape.now «record» ≤ P.room (P.held lines.old))
        × (highest_of (sheet_of how x.now) tape.now «record» ≤ length components.old)) }
    ensures lines { P.held lines.new
        ≡ filled_lines P.puts (sheet_of how r.now) (sheet_of how x.now) tape.now «record» (P.held lines.old) }
    ensures components { components.new
        ≡ filled_components (sheet_of how x.now) tape.now «record» components.old }
{
    let h = highest(how, x, tape, record) as usize;
    P::clear(h, lines);
    components[..h].fill(0);
    let mut o = [0u32; lines::MOST_LINES];
    let m = in_order(how, r, &mut o);
    let w = wanted::coded(tape, record);
    for k in 0..lines::line_count(how, x) {
        if wanted::is_of(how, x, k, w) {
            put::<P>(how, r, &o[..m], x, k, lines, components);
        }
    }
}
