#![tactic(auto)]
// What a code was: the header line of R that names it. The question checks the set itself, after its own range.
ghost use Rattle.std.specs.Prelude.{◌≡◌, true, ◌≤◌, IfSome, IfOk};
ghost use Rattle.rules.specs.Sheet.{most_lines};
ghost use Rattle.rules.specs.Codes.{line_naming};
ghost use Rattle.rules.specs.Tables.{written, code_asked};
ghost use Rattle.lines.specs.Reading.{sheet_of};
ghost use Rattle.codes.specs.Named.{line_or};
ghost use Rattle.tables.specs.Paper.{paper, table_line_on};

use lines::{Reading, Refusal};

// A code of kind i: two bytes, of an instrument one digit.
fn code_asked(i: u8, code: &[u8]) -> bool
    ensures value { result ≡ code_asked i code.now }
{
    if i == 3 {
        return code.len() == 1 && codes::is_code(3, code[0], b',');
    }
    if i == 0 {
        return false;
    }
    code.len() == 2 && codes::is_code(i, code[0], code[1])
}

// The line that names a code of kind i.
fn line_naming(how: Reading, r: &[u8], i: u8, code: &[u8]) -> Option<u32>
    requires { ((sheet_of how r.now).count ≤ most_lines) × ((i ≤ 3) × (code_asked i code.now ≡ true)) }
    ensures value { line_or result ≡ line_naming (sheet_of how r.now) i (written i code.now) }
    ensures counted { IfSome result (λ l. 1 ≤ l) }
{
    if i == 3 {
        return codes::line_naming(how, r, 3, code[0], b',');
    }
    codes::line_naming(how, r, i, code[0], code[1])
}

// The header line of R that names a code, counted from 1.
pub fn table_line(
    how: Reading,
    r: &[u8],
    s: &[u8],
    x: &[u8],
    kind: u64,
    code: &[u8],
) -> Result<Option<u32>, Refusal>
    ensures answer { paper result ≡ table_line_on how r.now s.now x.now kind code.now }
    ensures counted { IfOk result (λ o. IfSome o (λ l. 1 ≤ l)) }
{
    let i = lines::kind_of(kind);
    if !code_asked(i, code) {
        return Err(lines::unplaced(20));
    }
    sets::cross(how, r, s, x)?;
    Ok(line_naming(how, r, i, code))
}
