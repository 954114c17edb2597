// The lookup: which line of R a relation line leads to.
ghost use Rattle.std.specs.Prelude.{◌≡◌};
ghost use Rattle.rules.specs.Relations.{reach_at};
ghost use Rattle.rules.specs.Order.{receiver_line};
ghost use Rattle.lines.specs.Reading.{sheet_of};
ghost use Rattle.form.specs.Known.{Known};
ghost use Rattle.keys.specs.Held.{RelationLine};

use keys::Keyed;
use lines::Reading;

// The line of receiver number n of relation line k, or the number of lines: as the rules say it, so that an accepted set gives it with no test.
pub fn receiver_line(how: Reading, r: &[u8], x: &[u8], k: usize, n: u32) -> usize
    requires { Known 1 (sheet_of how r.now) × (Known 3 (sheet_of how x.now) × RelationLine (sheet_of how x.now) k) }
    ensures value { result ≡ receiver_line (sheet_of how r.now) (reach_at (sheet_of how x.now) k) n }
{
    let y = keys::receiver_key(how, x, k, n);
    let z = Keyed::receivers(how);
    let count = lines::line_count(how, r);
    for j in 0..count {
        if keys::holds(z, r, j, y) {
            return j;
        }
    }
    count
}
