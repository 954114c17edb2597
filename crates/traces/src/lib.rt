#![tactic(auto)]
// The questions on a set: from a tape, record and channel to the receiver's line and component, and back; and all traces as rows. Each checks
// the set itself, after the question's own range.
ghost use Rattle.std.specs.Prelude.{◌≡◌, true, ◌≤◌, Ok, Some};
ghost use Rattle.rules.specs.Relations.{reach_at};
ghost use Rattle.rules.specs.Cover.{carries, channel_of};
ghost use Rattle.rules.specs.Points.{point_at};
ghost use Rattle.rules.specs.Check.{channel as channel_answer};
ghost use Rattle.rules.specs.Lookup.{reaches, found as found_of, found_back};
ghost use Rattle.rules.specs.Spread.{spread as spread_of};
ghost use Rattle.rules.specs.TraceRows.{traces_in};
ghost use Rattle.lines.specs.Reading.{sheet_of};
ghost use Rattle.keys.specs.Held.{RelationLine};
ghost use Rattle.sets.specs.Paper.{paper as set_paper, cross_on};
ghost use Rattle.spread.specs.Asked.{Asked, Accepted};
ghost use Rattle.traces.specs.Paper.{paper, paper_channel, paper_spread};
ghost use Rattle.traces.specs.Steps.{traced_on, ReceiverLine};
ghost use Rattle.traces.specs.Calls.{lookup_on, way_back_on, table_on, Spreads, SpreadTable, SpreadBytes};

use keys::Keyed;
use lines::{Reading, Refusal};
use records::{cover, relation};
use rows::Wanted;
use search::Sought;
use sets::Counts;
use spread::place::{Bytes, Numbers, Places};

mod asked;
mod back;
mod forth;
mod search;

// What a channel leads to: a receiver's line in R, its component and whether it is killed.
#[derive(Clone, Copy, Debug, PartialEq, Eq)]
pub struct Reached {
    pub line: u32,
    pub component: u8,
    pub killed: bool,
}

// How the files are read, and which record of the tape is asked for.
#[derive(Clone, Copy, Debug, PartialEq, Eq)]
pub struct Question {
    pub how: Reading,
    pub record: u64,
}

// What a channel leads to by relation line k, which carries it.
fn traced(how: Reading, r: &[u8], x: &[u8], k: usize, channel: u64) -> Reached
    requires { Accepted (sheet_of how r.now) (sheet_of how x.now)
        × (RelationLine (sheet_of how x.now) k × (carries (reach_at (sheet_of how x.now) k) channel ≡ true)) }
    ensures answer { paper (Ok (Some result)) ≡ traced_on (sheet_of how r.now) (reach_at (sheet_of how x.now) k) channel }
{
    let q = relation::reach_of(&lines::line_of(how, x, k));
    let j = forth::receiver_line(how, r, x, k, cover::leads(q, channel) as u32);
    Reached {
        line: j as u32 + 1,
        component: cover::component(q, channel) as u8,
        killed: keys::killed(how, r, j),
    }
}

// What a channel of that tape and record leads to in an accepted set.
fn found(q: Question, r: &[u8], x: &[u8], tape: &[u8], channel: u64) -> Option<Reached>
    requires { Accepted (sheet_of q.how r.now) (sheet_of q.how x.now) × Asked tape.now q.«record» }
    ensures answer { paper (Ok result) ≡ found_of (sheet_of q.how r.now) (sheet_of q.how x.now) tape.now q.«record» channel }
{
    let k = search::first(q, r, x, tape, Sought::Channel(channel))?;
    Some(traced(q.how, r, x, k, channel))
}

// The lookup: from tape, record and channel to the receiver's line and component; none where there is no trace.
pub fn trace(
    q: Question,
    r: &[u8],
    s: &[u8],
    x: &[u8],
    tape: &[u8],
    channel: u64,
) -> Result<Option<Reached>, Refusal>
    ensures answer { paper result
        ≡ lookup_on q.how r.now s.now x.now tape.now q.«record» channel }
{
    if !asked::record(tape, q.record) || !asked::channel(channel) {
        return Err(lines::unplaced(20));
    }
    sets::cross(q.how, r, s, x)?;
    Ok(found(q, r, x, tape, channel))
}

// The channel of relation line k for a component of the receiver in line i of R, from 0, which it reaches.
fn returned(how: Reading, r: &[u8], i: usize, x: &[u8], k: usize, component: u64) -> u32
    requires { (Accepted (sheet_of how r.now) (sheet_of how x.now) × ReceiverLine (sheet_of how r.now) i)
        × (RelationLine (sheet_of how x.now) k
        × (reaches (point_at (sheet_of how r.now) i) component (reach_at (sheet_of how x.now) k) ≡ true)) }
    ensures answer { paper_channel (Ok (Some result))
        ≡ channel_answer (channel_of (reach_at (sheet_of how x.now) k) (point_at (sheet_of how r.now) i).number component) }
{
    let number = relation::number_at(&lines::line_of(how, r, i), 18, 25);
    let q = relation::reach_of(&lines::line_of(how, x, k));
    cover::channel_of(q, number as u64, component) as u32
}

// The channel of that tape and record for a component of an R line, counted from 1, in an accepted set.
fn found_back(
    q: Question,
    r: &[u8],
    x: &[u8],
    tape: &[u8],
    r_line: u64,
    component: u64,
) -> Option<u32>
    requires { Accepted (sheet_of q.how r.now) (sheet_of q.how x.now) × (Asked tape.now q.«record» × (1 ≤ r_line)) }
    ensures answer { paper_channel (Ok result)
        ≡ found_back (sheet_of q.how r.now) (sheet_of q.how x.now) tape.now q.«record» r_line component }
{
    if (lines::line_count(q.how, r) as u64) < r_line {
        return None;
    }
    let i = (r_line - 1) as usize;
    if !keys::takes(Keyed::receivers(q.how), r, i) {
        return None;
    }
    let k = search::first(q, r, x, tape, Sought::Component(i, component))?;
    Some(returned(q.how, r, i, x, k, component))
}

// The way back: from tape, record, R line and component to the channel; none where there is no trace.
pub fn channel(
    q: Question,
    r: &[u8],
    s: &[u8],
    x: &[u8],
    tape: &[u8],
    r_line: u64,
    component: u64,
) -> Result<Option<u32>, Refusal>
    ensures answer { paper_channel result
        ≡ way_back_on q.how r.now s.now x.now tape.now q.«record» r_line component }
{
    if !asked::record(tape, q.record) || !asked::receiver(r_line, component) {
        return Err(lines::unplaced(20));
    }
    sets::cross(q.how, r, s, x)?;
    Ok(found_back(q, r, x, tape, r_line, component))
}

// What the spread table is answered for slices of m and n places.
fn judged(
    q: Question,
    r: &[u8],
    s: &[u8],
    x: &[u8],
    tape: &[u8],
    m: usize,
    n: usize,
) -> Result<u64, Refusal>
    ensures answer { paper_spread result ≡ spread_of (sheet_of q.how r.now) (sheet_of q.how s.now)
        (sheet_of q.how x.now) tape.now q.«record» m n }
{
    if !asked::record(tape, q.record) {
        return Err(lines::unplaced(20));
    }
    sets::cross(q.how, r, s, x)?;
    let h = spread::highest(q.how, x, tape, q.record);
    if (m.min(n) as u64) < h {
        return Err(lines::unplaced(21));
    }
    Ok(h)
}

// The spread table, over how the R line of a channel is put at its place.
fn filled<P: Places>(
    q: Question,
    r: &[u8],
    s: &[u8],
    x: &[u8],
    tape: &[u8],
    lines: &mut [P::Unit],
    components: &mut [u8],
) -> Result<u64, Refusal>
    ensures table { Spreads P.puts P.room (table_on q.how r.now s.now x.now tape.now q.«record»
        (P.held lines.old) components.old) (paper_spread result) (P.held lines.new) components.new }
{
    let h = judged(q, r, s, x, tape, P::room(lines), components.len())?;
    spread::fill::<P>(q.how, r, x, tape, q.record, lines, components);
    Ok(h)
}

// The spread table: place c - 1 of the slices takes the R line and the component of channel c, or 0 and 0, up to the record's highest
// covered channel, which it answers; later places stay, and a refusal writes nothing.
pub fn spread_table(
    q: Question,
    r: &[u8],
    s: &[u8],
    x: &[u8],
    tape: &[u8],
    lines: &mut [u16],
    components: &mut [u8],
) -> Result<u64, Refusal>
    ensures table { SpreadTable (table_on q.how r.now s.now x.now tape.now q.«record»
        lines.old components.old) (paper_spread result) lines.new components.new }
{
    filled::<Numbers>(q, r, s, x, tape, lines, components)
}

// The same for hosts whose slices are bytes: two bytes a number, low byte first; an odd last byte is no place and stays.
pub fn spread_bytes(
    q: Question,
    r: &[u8],
    s: &[u8],
    x: &[u8],
    tape: &[u8],
    lines: &mut [u8],
    components: &mut [u8],
) -> Result<u64, Refusal>
    ensures table { SpreadBytes (table_on q.how r.now s.now x.now tape.now q.«record»
        lines.old components.old) (paper_spread result) lines.new components.new }
{
    filled::<Bytes>(q, r, s, x, tape, lines, components)
}

// All traces of a set as rows: the cross-check's own answer, and of an accepted set the rows from trace `first` on in the places of a slice, as
// many as it has whole. A refusal writes nothing.
pub fn rows(
    how: Reading,
    r: &[u8],
    s: &[u8],
    x: &[u8],
    first: u64,
    places: &mut [u8],
) -> Result<Counts, Refusal>
    ensures answer { set_paper result ≡ cross_on how r.now s.now x.now }
    ensures written { places.new
        ≡ traces_in (sheet_of how r.now) (sheet_of how s.now) (sheet_of how x.now) first places.old }
{
    let counts = sets::cross(how, r, s, x)?;
    rows::fill(Wanted { how, first }, r, x, places);
    Ok(counts)
}
