// The columns of a field.
ghost use Rattle.std.specs.Prelude.{◌≡◌, true};
ghost use Rattle.rules.specs.Writer.{width_of};
ghost use Rattle.fields.specs.Paper.{sized};
ghost use Rattle.records.specs.Coded.{row_of};

use records::table::Row;

// How many there are.
pub fn width(w: Row) -> usize
    requires { sized w.kind w.first w.last ≡ true }
    ensures value { result ≡ width_of (row_of w).columns }
{
    w.last + 1 - w.first
}
