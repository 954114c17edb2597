// The first records of the tables, and a place for each code: the instruments 1 to 9, then every capital letter with a digit 1 to 9.
ghost use Rattle.std.specs.Prelude.{◌≡◌, ◌&&◌, [], ◌∷◌, ◌+◌, ◌-◌, ◌*◌, ◌≤◌, ◌<◌, IfSome};
ghost use Rattle.rules.specs.Places.{pick, some};
ghost use Rattle.rules.specs.Text.{cols, same};
ghost use Rattle.rules.specs.Layout.{sps93};
ghost use Rattle.rules.specs.Kinds.{of_family};
ghost use Rattle.rules.specs.Codes.{is_instrument, three_digits};
ghost use Rattle.codes.specs.Named.{place_or, kind_or, place_for, numbered, kind_on, place_on, Kind};

use fields::{bytes, families};

// So many places; what is no code has none.
pub const PLACES: usize = 243;

// The place of an instrument.
#[tactic(auto, using(crate::proofs::Steps::instruments))]
fn instrument_place(b: u8, d: u8) -> Option<usize>
    ensures value { place_or result ≡ pick (is_instrument (b ∷ d ∷ [])) (b - 49) 243 }
    ensures few { IfSome result (λ p. p < 243) }
{
    if d != b',' || !families::digit1(b) {
        return None;
    }
    Some(b as usize - 49)
}

// The place of the code of a point in file i.
#[tactic(auto, using(crate::proofs::Steps::points))]
fn point_place(i: u8, b: u8, d: u8) -> Option<usize>
    ensures value { place_or result ≡ pick (of_family i (b ∷ d ∷ [])) (9 + 9 * (b - 65) + (d - 49)) 243 }
    ensures few { IfSome result (λ p. p < 243) }
{
    if !families::digit1(d) || !families::is_code(i, b, d) {
        return None;
    }
    Some(9 + 9 * (b as usize - 65) + (d as usize - 49))
}

// The place of the code of kind i.
#[tactic(auto, using(crate::proofs::Steps::kinds_of_place))]
pub fn place(i: u8, b: u8, d: u8) -> Option<usize>
    ensures value { place_or result ≡ place_for i (b ∷ d ∷ []) }
    ensures few { IfSome result (λ p. p < 243) }
{
    if i == 3 {
        return instrument_place(b, d);
    }
    point_place(i, b, d)
}

// A header line of number t: its three digits.
#[tactic(auto, using(crate::proofs::Steps::numbers))]
fn is_numbered(l: &[u8; 80], t: u16) -> bool
    requires { t < 1000 }
    ensures value { result ≡ same (cols l.now 2 4) (three_digits t) }
{
    l[1] == 48 + (t / 100) as u8
        && bytes::two(
            l[2],
            l[3],
            48 + (t % 100 / 10) as u8,
            48 + (t % 100 % 10) as u8,
        )
}

// One of `many` numbers, which begin at `first` and stand `step` apart.
#[tactic(auto, using(crate::proofs::Steps::step_fits))]
fn opens(l: &[u8; 80], first: u16, step: u16, many: u16) -> bool
    requires { first + step * many < 1000 }
    ensures value { result ≡ numbered l.now first step many }
{
    (0..many).any(|n| is_numbered(l, first + step * n))
}

// The kind of the table of which a header line is the first record: receivers 1, sources 2, instruments 3.
#[tactic(auto, using(crate::proofs::Steps::kinds))]
fn kind_of(l: &[u8; 80]) -> Option<u8>
    ensures value { kind_or result ≡ kind_on sps93 l.now }
    ensures kind { IfSome result Kind }
{
    if opens(l, 600, 10, 10) {
        return Some(1);
    }
    if opens(l, 700, 20, 10) {
        return Some(2);
    }
    if opens(l, 400, 20, 9) {
        return Some(3);
    }
    None
}

// The place of the code that a header line names.
#[tactic(auto, using(crate::proofs::Steps::named_places))]
pub fn named_by(l: &[u8; 80]) -> Option<usize>
    ensures value { place_or result ≡ place_on sps93 l.now }
    ensures few { IfSome result (λ p. p < 243) }
{
    place(kind_of(l)?, l[32], l[33])
}
