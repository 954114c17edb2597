// The paper's tables of fields, one row a field: its columns, its rule, whether it may be blank, whether a marker has it free.
// Each function names what it unfolds: one list for the module is longer than a line may be.
ghost use Rattle.std.specs.Prelude.{◌≡◌, true, ℕ, ◌<◌, length, get_or};
ghost use Rattle.rules.specs.Layout.{sps93};
ghost use Rattle.rules.specs.Rows.{header_rows, point_rows, relation_rows};
ghost use Rattle.fields.specs.Paper.{sized};
ghost use Rattle.records.specs.Coded.{coded, row_of, rows_of, no_row};

use fields::Kind;

#[derive(Clone, Copy, Debug, PartialEq, Eq)]
pub struct Row {
    pub first: usize,
    pub last: usize,
    pub kind: Kind,
    pub blank: bool,
    pub free: bool,
}

// A table: of header lines, of point lines of file i, of relation lines.
#[derive(Clone, Copy, Debug, PartialEq, Eq)]
pub enum Table {
    Header,
    Point(u8),
    Relation,
}

fn field(first: usize, last: usize, kind: Kind, blank: bool, free: bool) -> Row
    ensures value { result ≡ coded first last kind blank free }
{
    Row {
        first,
        last,
        kind,
        blank,
        free,
    }
}

// The rows by their number: a constant holds no call of `field`, and a row written out takes seven lines.
#[tactic(auto, unfolding(rules::specs::Rows::header_rows, rules::specs::Layout::sps93, fields::specs::Paper::sized))]
fn header_row(j: usize) -> Row
    requires { j < 2 }
    ensures value { row_of result ≡ get_or (header_rows sps93) j no_row }
    ensures kept { sized result.kind result.first result.last ≡ true }
{
    match j {
        0 => field(2, 3, Kind::DigitsOnly, false, false),
        _ => field(4, 4, Kind::DigitsOnly, true, false),
    }
}

#[tactic(auto, unfolding(rules::specs::Rows::point_rows, rules::specs::Layout::sps93, fields::specs::Paper::sized))]
fn point_row(i: u8, j: usize) -> Row
    requires { j < 14 }
    ensures value { row_of result ≡ get_or (point_rows sps93 i) j no_row }
    ensures kept { sized result.kind result.first result.last ≡ true }
{
    match j {
        0 => field(2, 17, Kind::StartsNonBlank, false, false),
        1 => field(18, 25, Kind::WholeNumber(0, 99999999), false, true),
        2 => field(26, 26, Kind::Index, false, false),
        3 => field(27, 28, Kind::Code(i), false, false),
        4 => field(29, 32, Kind::SignedNumber(999, 999), true, true),
        5 => field(33, 36, Kind::DecimalNumber(999), false, true),
        6 => field(37, 40, Kind::SignedNumber(999, 9999), false, true),
        7 => field(41, 42, Kind::WholeNumber(0, 99), true, true),
        8 => field(43, 46, Kind::WaterDepth, true, true),
        9 => field(47, 55, Kind::Coordinate, false, false),
        10 => field(56, 65, Kind::Coordinate, false, false),
        11 => field(66, 71, Kind::SignedDecimal(9999, 99999), false, false),
        12 => field(72, 74, Kind::WholeNumber(1, 999), false, true),
        _ => field(75, 80, Kind::Time, false, true),
    }
}

#[tactic(auto, unfolding(rules::specs::Rows::relation_rows, rules::specs::Layout::sps93, fields::specs::Paper::sized))]
fn relation_row(j: usize) -> Row
    requires { j < 14 }
    ensures value { row_of result ≡ get_or (relation_rows sps93) j no_row }
    ensures kept { sized result.kind result.first result.last ≡ true }
{
    match j {
        0 => field(2, 7, Kind::StartsNonBlank, false, false),
        1 => field(8, 11, Kind::WholeNumber(0, 9999), false, false),
        2 => field(12, 12, Kind::Index, false, false),
        3 => field(13, 13, Kind::Index, false, false),
        4 => field(14, 29, Kind::StartsNonBlank, false, false),
        5 => field(30, 37, Kind::WholeNumber(0, 99999999), false, false),
        6 => field(38, 38, Kind::Index, false, false),
        7 => field(39, 42, Kind::WholeNumber(1, 9999), false, false),
        8 => field(43, 46, Kind::WholeNumber(1, 9999), false, false),
        9 => field(47, 47, Kind::Index, false, false),
        10 => field(48, 63, Kind::StartsNonBlank, false, false),
        11 => field(64, 71, Kind::WholeNumber(0, 99999999), false, false),
        12 => field(72, 79, Kind::WholeNumber(0, 99999999), false, false),
        _ => field(80, 80, Kind::Index, false, false),
    }
}

// How many rows a table has.
#[tactic(auto, unfolding(crate::specs::Coded::rows_of, rules::specs::Rows::header_rows, rules::specs::Rows::point_rows, rules::specs::Rows::relation_rows))]
pub fn row_count(t: Table) -> usize
    ensures value { result ≡ length (rows_of t) }
{
    match t {
        Table::Header => 2,
        Table::Point(_) => 14,
        Table::Relation => 14,
    }
}

// Row j of a table, from 0.
#[tactic(auto, unfolding(crate::specs::Coded::rows_of, rules::specs::Rows::header_rows, rules::specs::Rows::point_rows, rules::specs::Rows::relation_rows))]
pub fn row_at(t: Table, j: usize) -> Row
    requires { j < length (rows_of t) }
    ensures value { row_of result ≡ get_or (rows_of t) j no_row }
    ensures kept { sized result.kind result.first result.last ≡ true }
{
    match t {
        Table::Header => header_row(j),
        Table::Point(i) => point_row(i, j),
        Table::Relation => relation_row(j),
    }
}
