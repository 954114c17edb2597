// The way back: whether a relation line reaches a component of a receiver.
ghost use Rattle.std.specs.Prelude.{◌≡◌};
ghost use Rattle.rules.specs.Points.{point_at};
ghost use Rattle.rules.specs.Relations.{reach_at};
ghost use Rattle.rules.specs.Lookup.{reaches as reaches_point};
ghost use Rattle.lines.specs.Reading.{sheet_of};
ghost use Rattle.form.specs.Known.{Known};
ghost use Rattle.keys.specs.Held.{RelationLine};
ghost use Rattle.traces.specs.Steps.{ReceiverLine};

use keys::Keyed;
use lines::Reading;
use records::{cover, relation};

// Relation line k reaches a component of the receiver in line i of R, from 0.
pub fn reaches(how: Reading, r: &[u8], i: usize, x: &[u8], k: usize, component: u64) -> bool
    requires { ReceiverLine (sheet_of how r.now) i × (Known 3 (sheet_of how x.now) × RelationLine (sheet_of how x.now) k) }
    ensures value { result ≡ reaches_point (point_at (sheet_of how r.now) i) component (reach_at (sheet_of how x.now) k) }
{
    let number = relation::number_at(&lines::line_of(how, r, i), 18, 25);
    let q = relation::reach_of(&lines::line_of(how, x, k));
    let z = Keyed::receivers(how);
    let within = 1 <= component && component <= u64::from(q.step);
    within
        && cover::covers(q, u64::from(number))
        && keys::is_at(z, r, i, keys::receiver_key(how, x, k, number))
}
