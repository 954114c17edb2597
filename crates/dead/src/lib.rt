#![tactic(auto)]
// Dead traces: the channels that lead to killed receivers. In the order of name, index and number the receivers of a relation line are
// neighbours, so how many of them are killed is the difference of two running counts; no step is taken for a trace or a receiver of a line.
ghost use Rattle.std.specs.Prelude.{◌≡◌, ◌+◌, ◌<◌, length};
ghost use Rattle.rules.specs.Places.{pick, some, count};
ghost use Rattle.rules.specs.Points.{point_at, is_killed};
ghost use Rattle.rules.specs.Check.{dead_traces};
ghost use Rattle.lines.specs.Reading.{sheet_of};
ghost use Rattle.order.specs.Listed.{Sortable};
ghost use Rattle.keys.specs.declared.By.TheVariants.{Receivers};
ghost use Rattle.dead.specs.Dead.{killed_row, Counted, Lines, Tally, Summed, dead_at, Accepted};

use fields::figures;
use keys::Keyed;
use lines::Reading;

// Some line of R is killed.
fn any_killed(how: Reading, r: &[u8]) -> bool
    ensures value { result ≡ some (sheet_of how r.now).count (λ k. is_killed (point_at (sheet_of how r.now) k)) }
{
    (0..lines::line_count(how, r)).any(|k| keys::killed(how, r, k))
}

// 1 where line k of R is killed, else 0.
#[tactic(auto, using(crate::proofs::Killed::flag_is))]
pub fn one_if_killed(how: Reading, r: &[u8], k: usize) -> u32
    requires { k < (sheet_of how r.now).count }
    ensures value { result ≡ pick (is_killed (point_at (sheet_of how r.now) k)) 1 0 }
{
    u32::from(keys::killed(how, r, k))
}

// Counts the killed receivers along their order: t holds at each row how many are killed up to it and with it.
fn count_killed(how: Reading, r: &[u8], o: &[u32], t: &mut [u32])
    requires { Lines (sheet_of how r.now) o.now t.old }
    ensures written { Counted (sheet_of how r.now) o.now t.new
        × (length t.new ≡ length t.old) }
{
    let mut n: u32 = 0;
    for j in 0..o.len() {
        n += one_if_killed(how, r, o[j] as usize);
        t[j] = n;
    }
}

// How many receivers in the rows from e to e + d are killed.
fn killed_rows(how: Reading, r: &[u8], o: &[u32], t: &[u32], e: usize, d: usize) -> u32
    requires { Tally (sheet_of how r.now) o.now t.now × (e + d < length o.now) }
    ensures value { result ≡ count (d + 1) (λ i. killed_row (sheet_of how r.now) o.now (e + i)) }
{
    t[e + d] + one_if_killed(how, r, o[e] as usize) - t[e]
}

// The dead traces of line k, where it is a relation line.
fn line_dead(how: Reading, r: &[u8], o: &[u32], x: &[u8], k: usize, t: &[u32]) -> u64
    requires { Summed (sheet_of how r.now) o.now (sheet_of how x.now) t.now × (k < (sheet_of how x.now).count) }
    ensures value { result ≡ dead_at (sheet_of how r.now) (sheet_of how x.now) k }
    ensures small { result < 4294967296 }
{
    if !keys::takes(Keyed::records(how), x, k) {
        return 0;
    }
    let e = receivers::first_row(how, r, o, x, k);
    let l = lines::own_of(how, x, k);
    let d = figures::number(&l, 64, 71).abs_diff(figures::number(&l, 72, 79)) as usize;
    u64::from(killed_rows(how, r, o, t, e, d)) * figures::index(&l, 47)
}

// The dead traces of all relation lines.
#[tactic(auto, unfolding(rules::specs::Check::dead_traces))]
fn all_dead(how: Reading, r: &[u8], o: &[u32], x: &[u8], t: &[u32]) -> u64
    requires { Summed (sheet_of how r.now) o.now (sheet_of how x.now) t.now }
    ensures value { result ≡ dead_traces (sheet_of how r.now) (sheet_of how x.now) }
{
    let mut all = 0;
    for k in 0..lines::line_count(how, x) {
        all += line_dead(how, r, o, x, k, t);
    }
    all
}

// The dead traces of an accepted set; the arrays are scratch. Where no receiver is killed nothing is put in order.
pub fn dead_traces(how: Reading, r: &[u8], x: &[u8], o: &mut [u32], p: &mut [u32]) -> u64
    requires { Accepted (sheet_of how r.now) (sheet_of how x.now) × Sortable Receivers (sheet_of how r.now) o.old p.old }
    ensures value { result ≡ dead_traces (sheet_of how r.now) (sheet_of how x.now) }
{
    if !any_killed(how, r) {
        return 0;
    }
    let m = order::in_order(Keyed::receivers(how), r, o, p);
    let rows = &o[..m];
    count_killed(how, r, rows, p);
    all_dead(how, r, rows, x, p)
}
