// The values of a line as sixteen numbers of 64 bits. A signed number below 0 counts down from 2^64; an absent one is -2^63.
ghost use Rattle.std.specs.Prelude.{◌≡◌};
ghost use Rattle.values.specs.Places.{held_number, state_number, point_numbers, relation_numbers};

use records::point::Point;
use records::relation::Relation;
use records::state::State;

#[tactic(auto, using(crate::proofs::Carried::signed))]
fn held(v: Option<i64>) -> u64
    ensures value { result ≡ held_number v }
{
    v.unwrap_or(i64::MIN).cast_unsigned()
}

// 0 of a live point, 1 of a killed one, 2 of a marker: numbers of the places alone, so no conversion of the state.
pub fn state_number(s: State) -> u64
    ensures value { result ≡ state_number s }
{
    match s {
        State::Live => 0,
        State::Killed => 1,
        State::Marker => 2,
    }
}

// The places of a point: a function, since they are the C hosts' and the crate of `Point` knows of none.
#[tactic(auto, using(crate::proofs::Carried::signed), unfolding(crate::specs::Places::point_numbers))]
pub fn point_places(p: Point) -> [u64; 16]
    ensures value { result ≡ point_numbers p }
{
    [
        p.name.hi,
        p.name.lo,
        u64::from(p.number),
        u64::from(p.index),
        p.code,
        state_number(p.state),
        held(p.fixed),
        p.depth.cast_unsigned(),
        p.datum.cast_unsigned(),
        held(p.uphole),
        held(p.water),
        p.easting.cast_unsigned(),
        p.northing.cast_unsigned(),
        p.elevation.cast_unsigned(),
        u64::from(p.day),
        u64::from(p.time),
    ]
}

// Those of a relation.
#[tactic(auto, unfolding(crate::specs::Places::relation_numbers))]
pub fn relation_places(v: Relation) -> [u64; 16]
    ensures value { result ≡ relation_numbers v }
{
    let q = v.reach;
    [
        q.tape,
        u64::from(q.number),
        u64::from(v.increment),
        u64::from(v.instrument),
        v.source.hi,
        v.source.lo,
        u64::from(v.shot),
        u64::from(v.shot_index),
        u64::from(q.from),
        u64::from(q.upto),
        u64::from(q.step),
        q.receiver.hi,
        q.receiver.lo,
        u64::from(q.from_receiver),
        u64::from(q.to_receiver),
        u64::from(q.receiver_index),
    ]
}
