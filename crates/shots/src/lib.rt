#![tactic(auto)]
// The shots of relation lines: each is in S and not killed (13), none before that of the line before (14), and every shot that is not killed
// is named (15). Shots stand once in S, and relation lines go along with it: the shot of a line is looked for from that of the line before on.
ghost use Rattle.std.specs.Prelude.{◌≡◌, ◌<◌, not, ◌&&◌};
ghost use Rattle.rules.specs.Plan.{run};
ghost use Rattle.lines.specs.Paper.{paper};
ghost use Rattle.lines.specs.Reading.{sheet_of};
ghost use Rattle.form.specs.Known.{Known};
ghost use Rattle.rules.specs.Points.{point_at, is_killed};
ghost use Rattle.rules.specs.Order.{is_live};
ghost use Rattle.keys.specs.Held.{RelationLine};
ghost use Rattle.keys.specs.Keyed.{holds_key};
ghost use Rattle.keys.specs.declared.By.TheVariants.{Points};
ghost use Rattle.shots.specs.Places.{names_key, shot_found, onward as onward_of, line_in, Missed, Ordered, past_of, all_named};

use keys::{Key, Keyed};
use lines::{Reading, Verdict};

// Line j of S holds the shot with the key y, and it is not killed.
fn holds_shot(how: Reading, s: &[u8], j: usize, y: Key) -> bool
    requires { j < (sheet_of how s.now).count }
    ensures value { result ≡ (holds_key Points (sheet_of how s.now) y j && not (is_killed (point_at (sheet_of how s.now) j))) }
{
    keys::holds(Keyed::points(how), s, j, y) && !keys::killed(how, s, j)
}

// Line k of S is a shot that is not killed.
#[tactic(auto, using(crate::proofs::Held::is_point_lem), unfolding(rules::specs::Order::is_live))]
fn is_live(how: Reading, s: &[u8], k: usize) -> bool
    requires { k < (sheet_of how s.now).count }
    ensures value { result ≡ is_live (sheet_of how s.now) k }
{
    keys::takes(Keyed::points(how), s, k) && !keys::killed(how, s, k)
}

// The first line of S from `from` on that holds the shot of relation line k.
pub fn onward(how: Reading, s: &[u8], x: &[u8], k: usize, from: usize) -> Option<usize>
    requires { (Known 2 (sheet_of how s.now) × Known 3 (sheet_of how x.now)) × RelationLine (sheet_of how x.now) k }
    ensures value { result ≡ line_in (sheet_of how s.now).count (onward_of (sheet_of how s.now) (sheet_of how x.now) k from) }
{
    let y = keys::shot_key(how, x, k);
    for j in from..lines::line_count(how, s) {
        if holds_shot(how, s, j, y) {
            return Some(j);
        }
    }
    None
}

// 13 or 14 of relation line k, whose shot does not stand from that of the line before on.
pub fn missing(how: Reading, s: &[u8], x: &[u8], k: usize) -> Verdict
    requires { Missed (sheet_of how s.now) (sheet_of how x.now) k }
    ensures verdict { paper result ≡ run (shot_found (sheet_of how s.now) (sheet_of how x.now) k) }
{
    if onward(how, s, x, k, 0).is_some() {
        return lines::at_line(14, 3, k, 14);
    }
    lines::at_line(13, 3, k, 14)
}

// Relation line i of X names the shot with the key y.
#[tactic(auto, using(lines::proofs::Sheets::layout_is), unfolding(crate::specs::Places::names_key, keys::specs::Compare::same_key))]
fn names(how: Reading, x: &[u8], i: usize, y: Key) -> bool
    requires { i < (sheet_of how x.now).count }
    ensures value { result ≡ names_key (sheet_of how x.now) y i }
{
    keys::shot_key(how, x, i) == y
}

// The first line of X from j on that does not name the shot with the key y, or the number of lines: there the lines that name it end.
fn past(how: Reading, x: &[u8], j: usize, y: Key) -> usize
    ensures value { result ≡ past_of (sheet_of how x.now) y j }
{
    let n = lines::line_count(how, x);
    for i in j..n {
        if !names(how, x, i, y) {
            return i;
        }
    }
    n
}

// 15 over S: relation lines that name a shot stand together, in the order of the shots.
pub fn shots_named(how: Reading, s: &[u8], x: &[u8]) -> Verdict
    requires { Ordered (sheet_of how s.now) (sheet_of how x.now) }
    ensures verdict { paper result ≡ run (all_named (sheet_of how s.now) (sheet_of how x.now)) }
{
    let z = Keyed::points(how);
    let mut j = headers::heads(how, x);
    for k in 0..lines::line_count(how, s) {
        if is_live(how, s, k) {
            let i = past(how, x, j, keys::key_of(z, s, k));
            if i == j {
                return lines::at_line(15, 2, k, 1);
            }
            j = i;
        }
    }
    Ok(())
}
