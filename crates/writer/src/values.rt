// The values of a point and of a relation, in the order of their tables.
ghost use Rattle.std.specs.Prelude.{◌≡◌, ℕ, pos};
ghost use Rattle.rules.specs.Layout.{sps93};
ghost use Rattle.rules.specs.Rows.{point_rows, relation_rows};
ghost use Rattle.rules.specs.Values.{text, number, held_value, point_values, relation_values};
ghost use Rattle.writer.specs.Coded.{text_of, held_in, point_of, relation_of, value_of, values_of};

use fields::Name;
use records::point::Point;
use records::relation::Relation;

// What a field holds: a number, or text: that of a tape or a code is in `lo` alone.
#[derive(Clone, Copy, Debug, PartialEq, Eq)]
pub enum Value {
    Text(Name),
    Number(i64),
}

// A short text in the low bytes of one number.
pub fn short(lo: u64) -> Option<Value>
    ensures value { (w : ℕ) → value_of w result ≡ text (text_of w 0 lo) }
{
    Some(Value::Text(Name { hi: 0, lo }))
}

// A number that has no sign.
fn count(n: u32) -> Option<Value>
    ensures value { (w : ℕ) → value_of w result ≡ number (pos n) }
{
    Some(Value::Number(i64::from(n)))
}

// A field that may be blank.
fn held(n: Option<i64>) -> Option<Value>
    ensures value { (w : ℕ) → value_of w result ≡ held_value (held_in n) }
{
    n.map(Value::Number)
}

pub fn point_values(p: Point) -> [Option<Value>; 14]
    ensures value { (i : ℕ) → values_of (point_rows sps93 i) result ≡ point_values (point_of p) }
{
    [
        Some(Value::Text(p.name)),
        count(p.number),
        count(p.index),
        short(p.code),
        held(p.fixed),
        Some(Value::Number(p.depth)),
        Some(Value::Number(p.datum)),
        held(p.uphole),
        held(p.water),
        Some(Value::Number(p.easting)),
        Some(Value::Number(p.northing)),
        Some(Value::Number(p.elevation)),
        count(p.day),
        count(p.time),
    ]
}

pub fn relation_values(q: Relation) -> [Option<Value>; 14]
    ensures value { values_of (relation_rows sps93) result ≡ relation_values (relation_of q) }
{
    let reach = q.reach;
    [
        short(reach.tape),
        count(reach.number),
        count(q.increment),
        count(q.instrument),
        Some(Value::Text(q.source)),
        count(q.shot),
        count(q.shot_index),
        count(reach.from),
        count(reach.upto),
        count(reach.step),
        Some(Value::Text(reach.receiver)),
        count(reach.from_receiver),
        count(reach.to_receiver),
        count(reach.receiver_index),
    ]
}
