// The counts of an accepted set: receivers, shots, relation lines and traces.
ghost use Rattle.std.specs.Prelude.{◌≡◌, ◌+◌, ◌-◌, ◌≤◌, ◌<◌};
ghost use Rattle.rules.specs.Places.{count};
ghost use Rattle.rules.specs.Sheet.{most_lines};
ghost use Rattle.rules.specs.Check.{points as points_of, relations as relations_of, all_traces};
ghost use Rattle.lines.specs.Reading.{sheet_of};
ghost use Rattle.form.specs.Known.{Known};
ghost use Rattle.keys.specs.Keyed.{takes_in};
ghost use Rattle.rules.specs.TraceRows.{traces_at};

use fields::figures;
use keys::Keyed;
use lines::Reading;

// How many lines of a file have a key of that kind.
fn keyed(z: Keyed, f: &[u8]) -> u64
    requires { (sheet_of z.how f.now).count ≤ most_lines }
    ensures value { result ≡ count (sheet_of z.how f.now).count (takes_in z f.now) }
{
    let mut m: u64 = 0;
    for k in 0..lines::line_count(z.how, f) {
        if keys::takes(z, f, k) {
            m += 1;
        }
    }
    m
}

// How many receivers or shots a file has.
pub fn points(how: Reading, f: &[u8]) -> u64
    requires { (sheet_of how f.now).count ≤ most_lines }
    ensures value { result ≡ points_of (sheet_of how f.now) }
{
    keyed(Keyed::points(how), f)
}

// How many relation lines X has.
pub fn relations(how: Reading, x: &[u8]) -> u64
    requires { (sheet_of how x.now).count ≤ most_lines }
    ensures value { result ≡ relations_of (sheet_of how x.now) }
{
    keyed(Keyed::records(how), x)
}

// How many channels there are from the first to the last.
fn channels(from: u64, upto: u64) -> u64
    requires { upto < 4294967296 }
    ensures value { result ≡ upto + 1 - from }
{
    (upto + 1).saturating_sub(from)
}

// The traces of line k, where it is a relation line; only its channel numbers are read.
fn line_traces(how: Reading, x: &[u8], k: usize) -> u64
    requires { Known 3 (sheet_of how x.now) × (k < (sheet_of how x.now).count) }
    ensures value { result ≡ traces_at (sheet_of how x.now) k }
    ensures small { result < 4294967296 }
{
    let z = Keyed::records(how);
    if !keys::takes(z, x, k) {
        return 0;
    }
    let l = lines::own_of(how, x, k);
    channels(figures::number(&l, 39, 42), figures::number(&l, 43, 46))
}

// The traces of all relation lines.
pub fn traces(how: Reading, x: &[u8]) -> u64
    requires { Known 3 (sheet_of how x.now) }
    ensures value { result ≡ all_traces (sheet_of how x.now) }
{
    let mut m: u64 = 0;
    for k in 0..lines::line_count(how, x) {
        m += line_traces(how, x, k);
    }
    m
}
