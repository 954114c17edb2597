// A line: the columns of its fields, row by row of the table that reading goes by.
ghost use Rattle.std.specs.Prelude.{◌≡◌, true, ◌-◌};
ghost use Rattle.rules.specs.Spelled.{spell as spell_of, goes_into};
ghost use Rattle.rules.specs.Writer.{width_of, joined, writable, line_of};
ghost use Rattle.fields.specs.Paper.{sized};
ghost use Rattle.records.specs.Coded.{row_of, rows_of};
ghost use Rattle.texts.specs.Buffer.{Adds};
ghost use Rattle.writer.specs.Coded.{value_of, values_of};
ghost use Rattle.writer.specs.Columns.{columns_to};
ghost use Rattle.writer.specs.Made.{made};

use crate::values::Value;
use crate::{allowed, rows, spell};
use records::table;
use records::table::{Row, Table};

// Puts a value into the columns of its field, right justified, where they take it. The line is filled in place, so the answer is a bool; the text is
// made between the two tests, so they are no chain.
fn field(w: Row, v: Option<Value>, line: &mut [u8; 82]) -> bool
    requires { sized w.kind w.first w.last ≡ true }
    ensures goes { result ≡ goes_into (row_of w).kind (width_of (row_of w).columns) (value_of (width_of (row_of w).columns) v) }
    ensures put { result ≡ true → Adds line.old (w.first - 1)
        (spell_of (row_of w).kind (width_of (row_of w).columns) (value_of (width_of (row_of w).columns) v)) line.new w.last }
{
    if !allowed::allows(w, v) {
        return false;
    }
    let mut ink = [0u8; 40];
    let n = spell::text(w, v, &mut ink);
    let k = rows::width(w);
    if k < n {
        return false;
    }
    let at = texts::fill(b' ', k - n, line, w.first - 1);
    texts::add(&ink[..n], line, at);
    true
}

// Puts each value into its field, after the letter; false at the first that its columns do not take.
fn fields(t: Table, vs: [Option<Value>; 14], line: &mut [u8; 82]) -> bool
    ensures goes { result ≡ writable (rows_of t) (values_of (rows_of t) vs) }
    ensures put { result ≡ true → Adds line.old 1 (joined (rows_of t) (values_of (rows_of t) vs)) line.new (columns_to (rows_of t)) }
{
    for j in 0..table::row_count(t) {
        if !field(table::row_at(t, j), vs[j], line) {
            return false;
        }
    }
    true
}

// The 82 bytes of a line, of a table whose fields end in column 80; none where its columns do not take the values.
pub fn line_of(letter: u8, t: Table, vs: [Option<Value>; 14]) -> Option<[u8; 82]>
    requires { columns_to (rows_of t) ≡ 80 }
    ensures value { result ≡ made (writable (rows_of t) (values_of (rows_of t) vs)) (line_of letter (rows_of t) (values_of (rows_of t) vs)) }
{
    let mut line = [0u8; 82];
    texts::byte(letter, &mut line, 0);
    if !fields(t, vs, &mut line) {
        return None;
    }
    texts::add(b"\r\n", &mut line, 80);
    Some(line)
}
