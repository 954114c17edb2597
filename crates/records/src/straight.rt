// All fields of a line obey their rules: the rows of a table one after the other, with their columns as constants. Where one of these
// calls is true, 5 refuses nothing; where it is false, the loop over the table names the field.
// Each function names what it unfolds: one list for the module is longer than a line may be.
ghost use Rattle.std.specs.Prelude.{◌≡◌, true, false, ℕ, take, drop};
ghost use Rattle.rules.specs.Plan.{fine, run};
ghost use Rattle.rules.specs.Text.{cols};
ghost use Rattle.rules.specs.Layout.{sps93};
ghost use Rattle.rules.specs.Kinds.{fits as fits_kind, digits_only, whole_number, signed_number, water_depth, may_be_blank};
ghost use Rattle.rules.specs.Rows.{header_rows, point_rows, relation_rows};
ghost use Rattle.rules.specs.Form.{fields_fit};
ghost use Rattle.records.specs.Fitting.{all_fit, kept_rows, free_rows};

use fields::{bytes, kinds};

// A header line.
#[tactic(auto, using(crate::proofs::Fitting::fields), unfolding(rules::specs::Rows::header_rows, rules::specs::Layout::sps93, rules::specs::Layout::at))]
pub fn header_fits(l: &[u8; 80]) -> bool
    ensures fine { result ≡ true → (i k : ℕ) → fine ≡ run (fields_fit i k false l.now (header_rows sps93)) }
{
    kinds::digits_only(l, 2, 3) && (bytes::blank(l, 4, 4) || kinds::digits_only(l, 4, 4))
}

// The fields of a point line of file i that are asked of a marker too.
#[tactic(auto, using(crate::proofs::Fitting::fields), unfolding(rules::specs::Rows::point_rows, rules::specs::Layout::sps93, rules::specs::Layout::at))]
fn kept_fit(l: &[u8; 80], i: u8) -> bool
    ensures fits { result ≡ true → all_fit l.now (kept_rows (point_rows sps93 i)) ≡ true }
{
    kinds::starts_non_blank(l, 2)
        && kinds::index(l, 26)
        && kinds::code(i, l, 27)
        && kinds::coordinate(l, 47, 55)
        && kinds::coordinate(l, 56, 65)
        && kinds::signed_decimal(9999, 99999, l, 66, 71)
}

// The fields of a point line that a marker has free.
#[tactic(auto, using(crate::proofs::Fitting::fields), unfolding(rules::specs::Rows::point_rows, rules::specs::Layout::sps93, rules::specs::Layout::at))]
fn free_fit(l: &[u8; 80]) -> bool
    ensures fits { result ≡ true → (i : ℕ) → all_fit l.now (free_rows (point_rows sps93 i)) ≡ true }
{
    kinds::whole_number(0, 99999999, l, 18, 25)
        && (bytes::blank(l, 29, 32) || kinds::signed_number(999, 999, l, 29, 32))
        && kinds::decimal_number(999, l, 33, 36)
        && kinds::signed_number(999, 9999, l, 37, 40)
        && (bytes::blank(l, 41, 42) || kinds::whole_number(0, 99, l, 41, 42))
        && (bytes::blank(l, 43, 46) || kinds::water_depth(l, 43, 46))
        && kinds::whole_number(1, 999, l, 72, 74)
        && kinds::time(l, 75)
}

// A point line of file i, which is a marker where that is said.
#[tactic(auto, using(crate::proofs::Fitting::fields))]
pub fn point_fits(l: &[u8; 80], i: u8, marker: bool) -> bool
    ensures fine { result ≡ true → (k : ℕ) → fine ≡ run (fields_fit i k marker l.now (point_rows sps93 i)) }
{
    kept_fit(l, i) && (marker || free_fit(l))
}

// The fields of a relation line before its channels: the record and the shot.
#[tactic(auto, using(crate::proofs::Fitting::fields), unfolding(rules::specs::Rows::relation_rows, rules::specs::Layout::sps93, rules::specs::Layout::at))]
fn shot_fits(l: &[u8; 80]) -> bool
    ensures fits { result ≡ true → all_fit l.now (take 7 (relation_rows sps93)) ≡ true }
{
    kinds::starts_non_blank(l, 2)
        && kinds::whole_number(0, 9999, l, 8, 11)
        && kinds::index(l, 12)
        && kinds::index(l, 13)
        && kinds::starts_non_blank(l, 14)
        && kinds::whole_number(0, 99999999, l, 30, 37)
        && kinds::index(l, 38)
}

// The others: the channels and the receivers.
#[tactic(auto, using(crate::proofs::Fitting::fields), unfolding(rules::specs::Rows::relation_rows, rules::specs::Layout::sps93, rules::specs::Layout::at))]
fn reach_fits(l: &[u8; 80]) -> bool
    ensures fits { result ≡ true → all_fit l.now (drop 7 (relation_rows sps93)) ≡ true }
{
    kinds::whole_number(1, 9999, l, 39, 42)
        && kinds::whole_number(1, 9999, l, 43, 46)
        && kinds::index(l, 47)
        && kinds::starts_non_blank(l, 48)
        && kinds::whole_number(0, 99999999, l, 64, 71)
        && kinds::whole_number(0, 99999999, l, 72, 79)
        && kinds::index(l, 80)
}

// A relation line.
#[tactic(auto, using(crate::proofs::Fitting::fields), unfolding(rules::specs::Rows::relation_rows, rules::specs::Layout::sps93, rules::specs::Layout::at))]
pub fn relation_fits(l: &[u8; 80]) -> bool
    ensures fine { result ≡ true → (i k : ℕ) → fine ≡ run (fields_fit i k false l.now (relation_rows sps93)) }
{
    shot_fits(l) && reach_fits(l)
}
