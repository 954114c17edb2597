#![tactic(auto)]
// The calls for C hosts, which `include/sps.h` declares: the form of one file, the cross-check of three, both lookups, the spread table, the
// line that names a code and all traces as rows, on numbers and byte slices; in `line` the values of one line, read and written.
// Each carries the answer of the proved call over as one 64-bit number: a refusal from 2^40 on, any other answer below. The number of the
// medium comes first, and is looked at before all else.
ghost use Rattle.std.specs.Prelude.{◌≡◌, ◌^◌, ℕ};
ghost use Rattle.rules.specs.Places.{pick};
ghost use Rattle.rules.specs.Layout.{sps93};
ghost use Rattle.rules.specs.Medium.{sheet};
ghost use Rattle.rules.specs.Calls.{choice, form_in, cross_in, lookup_in, way_back_in, table_line_in, rows_in};
ghost use Rattle.rules.specs.Hosts.{packed, host_number};
ghost use Rattle.lines.specs.Paper.{told};
ghost use Rattle.sets.specs.Paper.{paper as set_paper};
ghost use Rattle.traces.specs.Calls.{table_of};
ghost use Rattle.sps.specs.Counts.{counted};
ghost use Rattle.sps.specs.Number.{number_of, or_zero, trace_number, ReadBy};
ghost use Rattle.sps.specs.Table.{SpreadTold};

use lines::{Reading, Refusal};
use sets::Counts;
use traces::{Question, Reached};

mod line;
mod places;

// A refusal as one number, since a host of C gets no Result.
#[tactic(auto, unfolding(rules::specs::Hosts::packed))]
fn pack(e: Refusal) -> u64
    ensures value { result ≡ packed (told e) }
{
    u64::from(e.number) * 1099511627776
        + u64::from(e.file) * 4294967296
        + u64::from(e.line) * 256
        + u64::from(e.column)
}

// What a call answers, as one number. Those of accepted sets and of lines that are read stay below 2^40, where refusals begin.
trait HostAnswer {
    ghost told_as: { Self → ℕ };

    fn told(self) -> u64
        ensures value { result ≡ told_as self };
}

// A file that is well formed.
impl HostAnswer for () {
    ghost told_as = { λ _. 0 };

    fn told(self) -> u64 {
        0
    }
}

// The traces of a set.
impl HostAnswer for Counts {
    ghost told_as = { λ c. c.traces };

    fn told(self) -> u64 {
        self.traces
    }
}

// What a channel leads to: the R line and component with the receiver's mark, 0 for no trace.
impl HostAnswer for Option<Reached> {
    ghost told_as = { trace_number };

    #[tactic(auto, using(crate::proofs::Told::mark_few))]
    fn told(self) -> u64 {
        match self {
            Some(t) => u64::from(t.line) * 16 + u64::from(t.component) + mark(t.killed),
            None => 0,
        }
    }
}

// A channel or a line, 0 for none.
impl HostAnswer for Option<u32> {
    ghost told_as = { or_zero };

    fn told(self) -> u64 {
        match self {
            Some(n) => u64::from(n),
            None => 0,
        }
    }
}

// The highest channel, or the state of a point.
impl HostAnswer for u64 {
    ghost told_as = { λ n. n };

    fn told(self) -> u64 {
        self
    }
}

// The mark of a killed receiver.
#[tactic(auto, unfolding(rules::specs::Places::pick))]
fn mark(killed: bool) -> u64
    ensures value { result ≡ pick killed (2 ^ 32) 0 }
{
    if killed { 4294967296 } else { 0 }
}

// An answer as one number.
fn number<T: HostAnswer>(r: Result<T, Refusal>) -> u64
    ensures value { result ≡ number_of T.told_as r }
{
    match r {
        Ok(v) => v.told(),
        Err(e) => pack(e),
    }
}

// How the files of the medium's number are read: 20 where it is none.
fn reading(medium: u64) -> Result<Reading, Refusal>
    ensures by { ReadBy (choice medium) result }
{
    lines::chosen(medium).ok_or(lines::unplaced(20))
}

// The cross-check of the medium's number.
fn crossed(medium: u64, r: &[u8], s: &[u8], x: &[u8]) -> Result<Counts, Refusal>
    ensures answer { set_paper result ≡ cross_in (choice medium) r.now s.now x.now }
{
    reading(medium).and_then(|how| sets::cross(how, r, s, x))
}

// Puts the receivers, shots, relation lines, traces and dead traces of an accepted set. A refusal writes nothing.
#[tactic(auto, unfolding(crate::specs::Counts::counted))]
fn put_counts(a: Result<Counts, Refusal>, counts: &mut [u8])
    ensures written { counts.new ≡ counted (set_paper a) counts.old }
{
    if let Ok(c) = a {
        places::put_all(
            &[c.receivers, c.shots, c.relations, c.traces, c.dead_traces],
            counts,
        );
    }
}

// The form of one file of a kind, the letter R, S or X: 0 where it is well formed.
#[unsafe(no_mangle)]
pub extern "C" fn sps_form(medium: u64, kind: u64, file: &[u8]) -> u64
    ensures answer { result ≡ host_number (form_in (choice medium) kind file.now) }
{
    number(reading(medium).and_then(|how| form::form(how, kind, file)))
}

// The cross-check of a set: its traces.
#[tactic(auto, using(crate::proofs::Chosen::set_number))]
#[unsafe(no_mangle)]
pub extern "C" fn sps_cross(medium: u64, r: &[u8], s: &[u8], x: &[u8]) -> u64
    ensures answer { result ≡ host_number (cross_in (choice medium) r.now s.now x.now) }
{
    number(crossed(medium, r, s, x))
}

// The same, and the receivers, shots, relation lines, traces and dead traces of an accepted set in counts: places of eight bytes, low byte first, of
// which those are written that counts has whole. A refusal writes nothing.
#[tactic(auto, using(crate::proofs::Chosen::set_number))]
#[unsafe(no_mangle)]
pub extern "C" fn sps_counts(medium: u64, r: &[u8], s: &[u8], x: &[u8], counts: &mut [u8]) -> u64
    ensures answer { result ≡ host_number (cross_in (choice medium) r.now s.now x.now) }
    ensures written { counts.new
        ≡ counted (cross_in (choice medium) r.now s.now x.now) counts.old }
{
    let a = crossed(medium, r, s, x);
    put_counts(a, counts);
    number(a)
}

// The lookup: R line * 16 + component, 2^32 more where the receiver is killed, 0 for no trace.
#[unsafe(no_mangle)]
pub extern "C" fn sps_trace(
    medium: u64,
    r: &[u8],
    s: &[u8],
    x: &[u8],
    tape: &[u8],
    record: u64,
    channel: u64,
) -> u64
    ensures answer { result
        ≡ host_number (lookup_in (choice medium) r.now s.now x.now tape.now «record» channel) }
{
    number(reading(medium).and_then(|how| {
        traces::trace(Question { how, record }, r, s, x, tape, channel)
    }))
}

// The way back: the channel, 0 for no trace.
#[unsafe(no_mangle)]
pub extern "C" fn sps_channel(
    medium: u64,
    r: &[u8],
    s: &[u8],
    x: &[u8],
    tape: &[u8],
    record: u64,
    r_line: u64,
    component: u64,
) -> u64
    ensures answer { result
        ≡ host_number (way_back_in (choice medium) r.now s.now x.now tape.now «record» r_line component) }
{
    number(reading(medium).and_then(|how| {
        traces::channel(Question { how, record }, r, s, x, tape, r_line, component)
    }))
}

// The spread table: the highest channel; the lines are numbers of two bytes, low byte first.
#[unsafe(no_mangle)]
pub extern "C" fn sps_spread(
    medium: u64,
    r: &[u8],
    s: &[u8],
    x: &[u8],
    tape: &[u8],
    record: u64,
    lines: &mut [u8],
    components: &mut [u8],
) -> u64
    ensures table { SpreadTold (choice medium) (λ M. table_of (sheet M sps93) r.now s.now x.now
        tape.now «record» lines.old components.old)
        lines.old components.old result lines.new components.new }
{
    // A match: a function for `?` would have these parameters and clauses again.
    match reading(medium) {
        Ok(how) => {
            let q = Question { how, record };
            number(traces::spread_bytes(q, r, s, x, tape, lines, components))
        }
        Err(e) => pack(e),
    }
}

// The header line of R that names a code, 0 for none; the kind is a letter's byte, R, S, or X for instruments.
#[unsafe(no_mangle)]
pub extern "C" fn sps_table_line(
    medium: u64,
    r: &[u8],
    s: &[u8],
    x: &[u8],
    kind: u64,
    code: &[u8],
) -> u64
    ensures answer { result
        ≡ host_number (table_line_in (choice medium) r.now s.now x.now kind code.now) }
{
    number(reading(medium).and_then(|how| tables::table_line(how, r, s, x, kind, code)))
}

// All traces of a set as rows of sixteen bytes: of an accepted set those from trace `first` on go into the places of a slice, as many as it has
// whole. Answers the traces of the set. A refusal writes nothing.
#[tactic(auto, using(crate::proofs::Chosen::set_number), unfolding(lines::specs::Reading::sheet_of, rules::specs::Hosts::host_number))]
#[unsafe(no_mangle)]
pub extern "C" fn sps_traces(
    medium: u64,
    r: &[u8],
    s: &[u8],
    x: &[u8],
    first: u64,
    rows: &mut [u8],
) -> u64
    ensures answer { result ≡ host_number (cross_in (choice medium) r.now s.now x.now) }
    ensures written { rows.new
        ≡ rows_in (choice medium) r.now s.now x.now first rows.old }
{
    // A match, as in `sps_spread`.
    match reading(medium) {
        Ok(how) => number(traces::rows(how, r, s, x, first, rows)),
        Err(e) => pack(e),
    }
}
