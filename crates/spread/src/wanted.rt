// The record that is asked for, as relation lines have it.
ghost use Rattle.std.specs.Prelude.{◌≡◌, ◌<◌};
ghost use Rattle.rules.specs.Places.{pick};
ghost use Rattle.rules.specs.Relations.{reach_at};
ghost use Rattle.lines.specs.Reading.{sheet_of};
ghost use Rattle.spread.specs.Asked.{Asked, wanted_of, is_of};

use fields::names;
use lines::Reading;
use records::{fits, relation};

// A tape, its six bytes as one number, and the number of a record.
// Calls pass the tape beside the record and code it here: their clauses speak of its bytes, and each would ask again what a code stands for.
#[derive(Clone, Copy, Debug, PartialEq, Eq)]
pub struct Wanted {
    pub tape: u64,
    pub number: u64,
}

// That tape and record.
pub fn coded(tape: &[u8], record: u64) -> Wanted
    requires { Asked tape.now «record» }
    ensures value { result ≡ wanted_of tape.now «record» }
{
    let mut l = [0; 80];
    l[..6].copy_from_slice(tape);
    Wanted {
        tape: names::pack(&l, 1, 6),
        number: record,
    }
}

// Line k is a relation line of that tape and record; nothing else of it is read.
pub fn is_of(how: Reading, x: &[u8], k: usize, w: Wanted) -> bool
    requires { k < (sheet_of how x.now).count }
    ensures value { result ≡ is_of (sheet_of how x.now) w k }
{
    let l = lines::line_of(how, x, k);
    !fits::is_header(&l)
        && names::pack(&l, 2, 7) == w.tape
        && u64::from(relation::number_at(&l, 8, 11)) == w.number
}

// The last channel of line k, where it is a relation line of that tape and record; 0 for any other line.
pub fn upto_of(how: Reading, x: &[u8], k: usize, w: Wanted) -> u64
    requires { k < (sheet_of how x.now).count }
    ensures value { result ≡ pick (is_of (sheet_of how x.now) w k) (reach_at (sheet_of how x.now) k).upto 0 }
{
    if is_of(how, x, k, w) {
        return u64::from(relation::number_at(&lines::line_of(how, x, k), 43, 46));
    }
    0
}
