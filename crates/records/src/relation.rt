// The values of a relation line.
ghost use Rattle.std.specs.Prelude.{◌≡◌, ℕ, ◌+◌, ◌≤◌, ◌<◌};
ghost use Rattle.rules.specs.Layout.{sps93};
ghost use Rattle.rules.specs.Text.{cols, col};
ghost use Rattle.rules.specs.Numbers.{whole as whole_of, size as size_of};
ghost use Rattle.rules.specs.Kinds.{index_of};
ghost use Rattle.rules.specs.Relations.{reach as reach_values, relation as relation_values};
ghost use Rattle.records.specs.Coded.{coded_reach, coded_relation};

use fields::{Name, bytes, names, numbers, ranges};

// What a relation line covers, of which tape and record.
#[derive(Clone, Copy, Debug, PartialEq, Eq)]
pub struct Reach {
    pub tape: u64,
    pub number: u32,
    pub from: u32,
    pub upto: u32,
    pub step: u32,
    pub receiver: Name,
    pub from_receiver: u32,
    pub to_receiver: u32,
    pub receiver_index: u32,
}

// The reach, its shot, the record increment and the instrument.
#[derive(Clone, Copy, Debug, PartialEq, Eq)]
pub struct Relation {
    pub increment: u32,
    pub instrument: u32,
    pub source: Name,
    pub shot: u32,
    pub shot_index: u32,
    pub reach: Reach,
}

// The whole number in columns a to b, at most 8; 0 where there is none.
pub fn number_at(l: &[u8; 80], a: usize, b: usize) -> u32
    requires { (1 ≤ a) × ((b ≤ 80) × (b < a + 8)) }
    ensures value { result ≡ size_of (whole_of (cols l.now a b)) }
{
    ranges::size(numbers::whole(l, a, b)) as u32
}

// The index in column a.
#[tactic(auto, using(fields::proofs::Codes::first_column))]
pub fn index_at(l: &[u8; 80], a: usize) -> u32
    requires { (1 ≤ a) × (a ≤ 80) }
    ensures value { result ≡ index_of (col (cols l.now a a) 1) }
{
    bytes::index_of(l[a - 1]) as u32
}

pub fn reach_of(l: &[u8; 80]) -> Reach
    ensures value { result ≡ coded_reach (reach_values sps93 l.now) }
{
    Reach {
        tape: names::pack(l, 2, 7),
        number: number_at(l, 8, 11),
        from: number_at(l, 39, 42),
        upto: number_at(l, 43, 46),
        step: index_at(l, 47),
        receiver: names::name(l, 48),
        from_receiver: number_at(l, 64, 71),
        to_receiver: number_at(l, 72, 79),
        receiver_index: index_at(l, 80),
    }
}

pub fn relation_of(l: &[u8; 80]) -> Relation
    ensures value { result ≡ coded_relation (relation_values sps93 l.now) }
{
    Relation {
        increment: index_at(l, 12),
        instrument: index_at(l, 13),
        source: names::name(l, 14),
        shot: number_at(l, 30, 37),
        shot_index: index_at(l, 38),
        reach: reach_of(l),
    }
}
