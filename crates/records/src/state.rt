// The state of a point: live, killed (KL) or a marker (PM). Above this crate nobody reads the code's letters.
ghost use Rattle.std.specs.Prelude.{◌≡◌, [], ◌∷◌, ◌≤◌};
ghost use Rattle.rules.specs.Text.{same};
ghost use Rattle.rules.specs.Layout.{sps93, at};
ghost use Rattle.rules.specs.Names.{ranked};
ghost use Rattle.rules.specs.Points.{state_of};
ghost use Rattle.rules.specs.Carried.{bytes_of};
ghost use Rattle.lines.specs.Reading.{medium_of};
ghost use Rattle.records.specs.Coded.{coded_state};

use lines::Reading;

#[derive(Clone, Copy, Debug, PartialEq, Eq)]
pub enum State {
    Live,
    Killed,
    Marker,
}

// The code of a line in the medium's own bytes is these two letters.
#[tactic(auto, using(crate::proofs::States::code_in))]
fn has_code(how: Reading, l: &[u8; 80], a: u8, b: u8) -> bool
    requires { ((65 ≤ a) × (a ≤ 90)) × ((65 ≤ b) × (b ≤ 90)) }
    ensures value { result ≡ same (at (ranked (medium_of how).char_of l.now) sps93.code) (a ∷ b ∷ []) }
{
    lines::is_letter(how, l[26], a) && lines::is_letter(how, l[27], b)
}

// The state of a point line in the medium's own bytes.
#[tactic(auto, unfolding(rules::specs::Points::state_of, rules::specs::Text::bytes, rules::specs::Places::pick))]
pub fn state_in(how: Reading, l: &[u8; 80]) -> State
    ensures value { result ≡ coded_state (state_of (at (ranked (medium_of how).char_of l.now) sps93.code)) }
{
    if has_code(how, l, b'P', b'M') {
        State::Marker
    } else if has_code(how, l, b'K', b'L') {
        State::Killed
    } else {
        State::Live
    }
}

// PM and KL as numbers.
const MARKER: u64 = 20557;

const KILLED: u64 = 19276;

// The state of a code, whose two bytes are one number, the high one first.
#[tactic(auto, using(crate::proofs::States::codes), unfolding(rules::specs::Points::state_of, rules::specs::Text::bytes, rules::specs::Places::pick))]
pub fn state_of(code: u64) -> State
    ensures value { result ≡ coded_state (state_of (bytes_of 2 code)) }
{
    match code {
        MARKER => State::Marker,
        KILLED => State::Killed,
        _ => State::Live,
    }
}
