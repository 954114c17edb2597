#![tactic(auto, using(crate::proofs::Used::used), unfolding(crate::specs::Keys::is_point_line, crate::specs::Keys::takes_line, crate::specs::Keys::key_of))]
// The three numbers of a line's key, each by itself, so that those which decide nothing are not read. A line is in the medium's own bytes.
ghost use Rattle.std.specs.Prelude.{◌≡◌};
ghost use Rattle.rules.specs.Layout.{sps93};
ghost use Rattle.rules.specs.Lines.{is_header, is_marker};
ghost use Rattle.rules.specs.Names.{ranked};
ghost use Rattle.lines.specs.Reading.{medium_of};
ghost use Rattle.keys.specs.Keys.{is_point_line, takes_line, key_of};

use crate::By;
use fields::{figures, names};
use lines::Reading;
use records::state;
use records::state::State;

// H in column 1.
fn is_header(how: Reading, l: &[u8; 80]) -> bool
    ensures value { result ≡ is_header (ranked (medium_of how).char_of l.now) }
{
    lines::is_letter(how, l[0], b'H')
}

// A marker.
fn is_marker(how: Reading, l: &[u8; 80]) -> bool
    ensures value { result ≡ is_marker sps93 (ranked (medium_of how).char_of l.now) }
{
    state::state_in(how, l) == State::Marker
}

// A receiver or a shot: no header line and no marker.
fn is_point(how: Reading, l: &[u8; 80]) -> bool
    ensures value { result ≡ is_point_line sps93 (ranked (medium_of how).char_of l.now) }
{
    !is_header(how, l) && !is_marker(how, l)
}

// Whether a line has a key.
pub fn takes(how: Reading, by: By, l: &[u8; 80]) -> bool
    ensures value { result ≡ takes_line by sps93 (ranked (medium_of how).char_of l.now) }
{
    match by {
        By::Points | By::Receivers => is_point(how, l),
        By::Records => !is_header(how, l),
    }
}

pub fn first(by: By, l: &[u8; 80]) -> u64
    ensures value { result ≡ (key_of by sps93 l.now).first }
{
    match by {
        By::Points | By::Receivers => names::pack(l, 2, 9),
        By::Records => figures::number(l, 8, 11),
    }
}

pub fn second(by: By, l: &[u8; 80]) -> u64
    ensures value { result ≡ (key_of by sps93 l.now).second }
{
    match by {
        By::Points | By::Receivers => names::pack(l, 10, 17),
        By::Records => 0,
    }
}

pub fn third(by: By, l: &[u8; 80]) -> u64
    ensures value { result ≡ (key_of by sps93 l.now).third }
{
    match by {
        By::Points => 256 * figures::number(l, 18, 25) + figures::index(l, 26),
        By::Receivers => 4294967296 * figures::index(l, 26) + figures::number(l, 18, 25),
        By::Records => names::pack(l, 2, 7),
    }
}
