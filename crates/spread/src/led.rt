// The row of a receiver that a channel leads to: receivers of a relation line stand in rows that follow each other, from the lowest one's on.
ghost use Rattle.std.specs.Prelude.{◌≡◌, ◌≤◌, ◌<◌, length};
ghost use Rattle.rules.specs.Sheet.{most_lines};
ghost use Rattle.rules.specs.Relations.{Reach as PaperReach};
ghost use Rattle.records.specs.Coded.{coded_reach};
ghost use Rattle.spread.specs.RowLine.{row_to, row_line, Led};

use records::cover;
use records::relation::Reach;

// The row of the receiver that channel c leads to, where the lowest one stands in row e of o.
pub fn row_to(q: Reach, o: &[u32], e: usize, c: usize) -> usize
    requires { Led q o.now e c }
    ensures value { (p : PaperReach) → q ≡ coded_reach p → result ≡ row_to e p c }
    ensures inside { result < length o.now }
{
    let n = cover::leads(q, c as u64) - cover::lowest(q);
    e + n as usize
}

// The R line that channel c leads to.
pub fn line_to(q: Reach, o: &[u32], e: usize, c: usize) -> u32
    requires { Led q o.now e c }
    ensures value { (p : PaperReach) → q ≡ coded_reach p → result ≡ row_line o.now e p c }
    ensures few { result ≤ most_lines }
{
    o[row_to(q, o, e, c)] + 1
}
