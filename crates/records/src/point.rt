// The values of a point line. Decimals are signed whole tenths; a field that is blank is None.
ghost use Rattle.std.specs.Prelude.{◌≡◌, ℕ, ◌+◌, ◌^◌, ◌≤◌, ◌<◌};
ghost use Rattle.rules.specs.Layout.{sps93};
ghost use Rattle.rules.specs.Text.{cols, blank as is_blank};
ghost use Rattle.rules.specs.Numbers.{size as size_of, value as value_of};
ghost use Rattle.rules.specs.Points.{point as point_values};
ghost use Rattle.fields.specs.Paper.{number};
ghost use Rattle.records.specs.Coded.{held_of, coded_point};

use crate::state::State;
use crate::{relation, state};
use fields::{Name, Number, bytes, names, numbers, ranges};

#[derive(Clone, Copy, Debug, PartialEq, Eq)]
pub struct Point {
    pub name: Name,
    pub number: u32,
    pub index: u32,
    pub code: u64,
    pub state: State,
    pub fixed: Option<i64>,
    pub depth: i64,
    pub datum: i64,
    pub uphole: Option<i64>,
    pub water: Option<i64>,
    pub easting: i64,
    pub northing: i64,
    pub elevation: i64,
    pub day: u32,
    pub time: u32,
}

// The number n of columns a to b, or nothing where they are blank.
fn held_at(l: &[u8; 80], a: usize, b: usize, n: Option<Number>) -> Option<i64>
    requires { ((1 ≤ a) × (b ≤ 80)) × (size_of (number n) < 2 ^ 62) }
    ensures value { result ≡ held_of (is_blank (cols l.now a b)) (value_of (number n)) }
{
    if bytes::blank(l, a, b) {
        None
    } else {
        Some(ranges::value(n))
    }
}

// The values of a point line; of a marker those of its free columns say nothing.
#[tactic(auto, using(crate::proofs::Sizes::sizes))]
pub fn point_of(l: &[u8; 80]) -> Point
    ensures value { result ≡ coded_point (point_values sps93 l.now) }
{
    Point {
        name: names::name(l, 2),
        number: relation::number_at(l, 18, 25),
        index: relation::index_at(l, 26),
        code: names::pack(l, 27, 28),
        state: state::state_in(lines::disc(), l),
        fixed: held_at(l, 29, 32, numbers::signed(l, 29, 32)),
        depth: ranges::value(numbers::decimal(l, 33, 36)),
        datum: ranges::value(numbers::signed(l, 37, 40)),
        uphole: held_at(l, 41, 42, numbers::whole(l, 41, 42)),
        water: held_at(l, 43, 46, numbers::water(l, 43, 46)),
        easting: ranges::value(numbers::signed_decimal(l, 47, 55)),
        northing: ranges::value(numbers::signed_decimal(l, 56, 65)),
        elevation: ranges::value(numbers::signed_decimal(l, 66, 71)),
        day: relation::number_at(l, 72, 74),
        time: relation::number_at(l, 75, 80),
    }
}
