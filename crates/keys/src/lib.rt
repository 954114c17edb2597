#![tactic(auto, using(crate::proofs::Used::used))]
// The keys of lines: three numbers, read from the text where two lines are compared. By them lines are put in order and found again;
// nothing is kept of a line but its number. Keys are read in the medium's own bytes, so that no line is translated for them and names are in
// the medium's order; of a line that the form check has passed a key says what its fields say.
ghost use Rattle.std.specs.Prelude.{◌≡◌, ◌<◌};
ghost use Rattle.rules.specs.Layout.{sps93};
ghost use Rattle.rules.specs.Points.{point_at, is_killed};
ghost use Rattle.lines.specs.Reading.{sheet_of};
ghost use Rattle.form.specs.Known.{owned};
ghost use Rattle.keys.specs.Keys.{line_at, shot_key, receiver_key};
ghost use Rattle.keys.specs.Compare.{same_key, less_or};
ghost use Rattle.keys.specs.Keyed.{takes_in, keys_in, holds_key};

use fields::{figures, names};
use lines::Reading;
use records::state;
use records::state::State;

mod parts;

// What lines are compared by: points by name, number and index; receivers by name, index and number; relation lines by record and tape. It is a
// value and no type parameter, of which each would have a sort of its own.
#[derive(Clone, Copy, Debug, PartialEq, Eq)]
pub enum By {
    Points,
    Receivers,
    Records,
}

// A file's lines by their keys: how the file is read, and which key is meant.
#[derive(Clone, Copy, Debug, PartialEq, Eq)]
pub struct Keyed {
    pub how: Reading,
    pub by: By,
}

impl Keyed {
    // Receivers or shots by name, number and index.
    pub fn points(how: Reading) -> Keyed
        ensures value { result ≡ record { how = how; by = By.Points } }
    {
        Keyed {
            how,
            by: By::Points,
        }
    }

    // Receivers by name, index and number.
    pub fn receivers(how: Reading) -> Keyed
        ensures value { result ≡ record { how = how; by = By.Receivers } }
    {
        Keyed {
            how,
            by: By::Receivers,
        }
    }

    // Relation lines by record and tape.
    pub fn records(how: Reading) -> Keyed
        ensures value { result ≡ record { how = how; by = By.Records } }
    {
        Keyed {
            how,
            by: By::Records,
        }
    }
}

// Three numbers, compared one after the other.
#[derive(Clone, Copy, Debug, PartialEq, Eq, PartialOrd, Ord)]
pub struct Key {
    pub first: u64,
    pub second: u64,
    pub third: u64,
}

// Line k in the medium's own bytes, or 80 columns that hold nothing.
#[tactic(auto, using(crate::proofs::Used::used), unfolding(crate::specs::Keys::line_at, rules::specs::Places::pick))]
fn line_at(how: Reading, f: &[u8], k: usize) -> [u8; 80]
    ensures value { result ≡ line_at (sheet_of how f.now) k }
{
    if k < lines::line_count(how, f) {
        lines::own_of(how, f, k)
    } else {
        [0; 80]
    }
}

// Whether line k has a key: it is a receiver or a shot, or a relation line.
pub fn takes(z: Keyed, f: &[u8], k: usize) -> bool
    ensures value { result ≡ takes_in z f.now k }
{
    let Keyed { how, by } = z;
    k < lines::line_count(how, f) && parts::takes(how, by, &lines::own_of(how, f, k))
}

// Line k is killed.
pub fn killed(how: Reading, f: &[u8], k: usize) -> bool
    requires { k < (sheet_of how f.now).count }
    ensures value { result ≡ is_killed (point_at (sheet_of how f.now) k) }
{
    state::state_in(how, &lines::own_of(how, f, k)) == State::Killed
}

// The key of line k.
pub fn key_of(z: Keyed, f: &[u8], k: usize) -> Key
    ensures value { result ≡ keys_in z f.now k }
{
    let Keyed { how, by } = z;
    let l = line_at(how, f, k);
    Key {
        first: parts::first(by, &l),
        second: parts::second(by, &l),
        third: parts::third(by, &l),
    }
}

// Line k has the key y.
#[tactic(auto, using(crate::proofs::Used::used), unfolding(crate::specs::Compare::same_key))]
pub fn is_at(z: Keyed, f: &[u8], k: usize, y: Key) -> bool
    ensures value { result ≡ same_key (keys_in z f.now k) y }
{
    let Keyed { how, by } = z;
    let l = line_at(how, f, k);
    parts::first(by, &l) == y.first
        && parts::second(by, &l) == y.second
        && parts::third(by, &l) == y.third
}

// Line k is one that has a key, and has the key y.
#[tactic(auto, using(crate::proofs::Used::used), unfolding(crate::specs::Keyed::holds_key))]
pub fn holds(z: Keyed, f: &[u8], k: usize, y: Key) -> bool
    ensures value { result ≡ holds_key z.by (sheet_of z.how f.now) y k }
{
    is_at(z, f, k, y) && takes(z, f, k)
}

// Lines j and k have one key.
pub fn same(z: Keyed, f: &[u8], j: usize, k: usize) -> bool
    ensures value { result ≡ same_key (keys_in z f.now j) (keys_in z f.now k) }
{
    is_at(z, f, j, key_of(z, f, k))
}

// The key of line k is below y; where they are the same, what `tie` says.
// A number is read only where the one before ties; by `cmp` and `then_with` the check of a set takes 3 per cent more instructions.
#[tactic(auto, using(crate::proofs::Used::used), unfolding(crate::specs::Compare::less_or))]
pub fn below(z: Keyed, f: &[u8], k: usize, y: Key, tie: bool) -> bool
    ensures value { result ≡ less_or (keys_in z f.now k) y tie }
{
    let Keyed { how, by } = z;
    let l = line_at(how, f, k);
    let a = parts::first(by, &l);
    if a != y.first {
        return a < y.first;
    }
    let b = parts::second(by, &l);
    if b != y.second {
        return b < y.second;
    }
    let c = parts::third(by, &l);
    if c != y.third {
        return c < y.third;
    }
    tie
}

// a is below b by the first number that differs; where none does, what `tie` says.
#[tactic(auto, using(crate::proofs::Used::used), unfolding(crate::specs::Compare::less_or))]
pub fn precedes(a: Key, b: Key, tie: bool) -> bool
    ensures value { result ≡ less_or a b tie }
{
    a < b || a == b && tie
}

// The key of line j is below that of line k; where they are the same, what `tie` says.
pub fn less(z: Keyed, f: &[u8], j: usize, k: usize, tie: bool) -> bool
    ensures value { result ≡ less_or (keys_in z f.now j) (keys_in z f.now k) tie }
{
    below(z, f, j, key_of(z, f, k), tie)
}

// The key by which the shot of relation line k stands in S.
#[tactic(auto, using(crate::proofs::Used::used), unfolding(crate::specs::Keys::shot_key))]
pub fn shot_key(how: Reading, x: &[u8], k: usize) -> Key
    requires { k < (sheet_of how x.now).count }
    ensures value { result ≡ shot_key sps93 (owned (sheet_of how x.now) k) }
{
    let l = lines::own_of(how, x, k);
    let third = 256 * figures::number(&l, 30, 37) + figures::index(&l, 38);
    Key {
        first: names::pack(&l, 14, 21),
        second: names::pack(&l, 22, 29),
        third,
    }
}

// The key by which receiver number n of a relation line stands in R.
#[tactic(auto, using(crate::proofs::Used::used), unfolding(crate::specs::Keys::receiver_key))]
pub fn receiver_key(how: Reading, x: &[u8], k: usize, n: u32) -> Key
    requires { k < (sheet_of how x.now).count }
    ensures value { result ≡ receiver_key sps93 (owned (sheet_of how x.now) k) n }
{
    let l = lines::own_of(how, x, k);
    let third = 4294967296 * figures::index(&l, 80) + u64::from(n);
    Key {
        first: names::pack(&l, 48, 55),
        second: names::pack(&l, 56, 63),
        third,
    }
}
