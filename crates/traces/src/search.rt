// The search of a question: the first relation line of a tape and record that is what it asks for.
ghost use Rattle.std.specs.Prelude.{◌≡◌, ◌<◌};
ghost use Rattle.rules.specs.Reaches.{reaches_of, search};
ghost use Rattle.lines.specs.Reading.{sheet_of};
ghost use Rattle.form.specs.Known.{Known};
ghost use Rattle.spread.specs.Asked.{Asked};
ghost use Rattle.shots.specs.Places.{line_in};
ghost use Rattle.traces.specs.Steps.{passes, finds, SoughtIn};

use crate::{Question, back};
use lines::Reading;
use records::{cover, relation};
use spread::wanted;
use spread::wanted::Wanted;

// What is sought among the relation lines of a tape and record: one that carries a channel, or one that reaches a component of the
// receiver in line i of R, from 0.
#[derive(Clone, Copy, Debug, PartialEq, Eq)]
pub enum Sought {
    Channel(u64),
    Component(usize, u64),
}

// Line k is a relation line of that tape and record, and is what is sought.
fn is_here(how: Reading, r: &[u8], x: &[u8], k: usize, w: Wanted, what: Sought) -> bool
    requires { SoughtIn (sheet_of how r.now) what × (Known 3 (sheet_of how x.now) × (k < (sheet_of how x.now).count)) }
    ensures value { result ≡ passes (sheet_of how x.now) w (finds (sheet_of how r.now) what) k }
{
    wanted::is_of(how, x, k, w)
        && match what {
            Sought::Channel(c) => cover::carries(relation::reach_of(&lines::line_of(how, x, k)), c),
            Sought::Component(i, m) => back::reaches(how, r, i, x, k, m),
        }
}

// The first such line.
#[tactic(auto, using(rules::proofs::Steps::least_none_yet, rules::proofs::Steps::least_more))]
pub fn first(q: Question, r: &[u8], x: &[u8], tape: &[u8], what: Sought) -> Option<usize>
    requires { SoughtIn (sheet_of q.how r.now) what × (Known 3 (sheet_of q.how x.now) × Asked tape.now q.«record») }
    ensures value { result ≡ line_in (sheet_of q.how x.now).count
        (search (reaches_of (sheet_of q.how x.now)) tape.now q.«record» (finds (sheet_of q.how r.now) what)) }
{
    let w = wanted::coded(tape, q.record);
    for k in 0..lines::line_count(q.how, x) {
        if is_here(q.how, r, x, k, w, what) {
            return Some(k);
        }
    }
    None
}
