// The values of a point and of a relation from sixteen numbers of 64 bits, as a C host has them; functions, since an array has no conversion of
// this crate.
ghost use Rattle.std.specs.Prelude.{◌≡◌, ℕ, ◌^◌, ◌<◌, get_or};
ghost use Rattle.rules.specs.Layout.{sps93};
ghost use Rattle.rules.specs.Rows.{point_rows, relation_rows};
ghost use Rattle.rules.specs.Values.{text};
ghost use Rattle.rules.specs.Carried.{count_given, held_given, state_given, point_given, relation_given, reach_given};
ghost use Rattle.writer.specs.Coded.{text_of, state_in, reach_of, value_of, values_of};
ghost use Rattle.writer.specs.Given.{Narrow};

use crate::values::{Value, short};
use fields::Name;
use records::relation::Reach;
use records::state::State;

// A signed number: one from 2^63 on counts down from 2^64.
#[tactic(auto, using(crate::proofs::Given::signed))]
fn count(v: u64) -> Option<Value>
    ensures value { (w : ℕ) → value_of w result ≡ count_given v }
{
    Some(Value::Number(v.cast_signed()))
}

// A value that may be absent: -2^63.
#[tactic(auto, unfolding(rules::specs::Places::pick))]
fn held(v: u64) -> Option<Value>
    ensures value { (w : ℕ) → value_of w result ≡ held_given v }
{
    if v == 9223372036854775808 {
        None
    } else {
        count(v)
    }
}

fn name(hi: u64, lo: u64) -> Option<Value>
    ensures value { (w : ℕ) → value_of w result ≡ text (text_of w hi lo) }
{
    Some(Value::Text(Name { hi, lo }))
}

// 0 live, 1 killed, any other a marker.
#[tactic(auto, unfolding(rules::specs::Places::pick))]
pub fn state_of(n: u64) -> State
    ensures value { state_in result ≡ state_given n }
{
    match n {
        0 => State::Live,
        1 => State::Killed,
        _ => State::Marker,
    }
}

pub fn point(v: [u64; 16]) -> [Option<Value>; 14]
    ensures value { (i : ℕ) → values_of (point_rows sps93 i) result ≡ point_given (λ k. get_or v k 0) }
{
    [
        name(v[0], v[1]),
        count(v[2]),
        count(v[3]),
        short(v[4]),
        held(v[6]),
        count(v[7]),
        count(v[8]),
        held(v[9]),
        held(v[10]),
        count(v[11]),
        count(v[12]),
        count(v[13]),
        count(v[14]),
        count(v[15]),
    ]
}

pub fn relation(v: [u64; 16]) -> [Option<Value>; 14]
    ensures value { values_of (relation_rows sps93) result ≡ relation_given (λ k. get_or v k 0) }
{
    [
        short(v[0]),
        count(v[1]),
        count(v[2]),
        count(v[3]),
        name(v[4], v[5]),
        count(v[6]),
        count(v[7]),
        count(v[8]),
        count(v[9]),
        count(v[10]),
        name(v[11], v[12]),
        count(v[13]),
        count(v[14]),
        count(v[15]),
    ]
}

// A number of 32 bits; 0 where it is none.
fn narrow(v: u64) -> u32
    ensures value { v < 2 ^ 32 → result ≡ v }
{
    u32::try_from(v).unwrap_or(0)
}

// What a relation covers, where its numbers have 32 bits.
pub fn reach(v: [u64; 16]) -> Reach
    ensures value { Narrow (λ k. get_or v k 0) → reach_of result ≡ reach_given (λ k. get_or v k 0) }
{
    Reach {
        tape: v[0],
        number: narrow(v[1]),
        from: narrow(v[8]),
        upto: narrow(v[9]),
        step: narrow(v[10]),
        receiver: Name {
            hi: v[11],
            lo: v[12],
        },
        from_receiver: narrow(v[13]),
        to_receiver: narrow(v[14]),
        receiver_index: narrow(v[15]),
    }
}
