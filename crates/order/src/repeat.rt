// The first line that repeats an earlier line's key, from the order of the lines: it stands behind a neighbour with its key.
ghost use Rattle.std.specs.Prelude.{◌≡◌, ◌+◌, ◌≤◌, ◌<◌};
ghost use Rattle.rules.specs.Places.{least};
ghost use Rattle.rules.specs.Sheet.{most_lines};
ghost use Rattle.lines.specs.Reading.{sheet_of};
ghost use Rattle.keys.specs.Keyed.{keys_in};
ghost use Rattle.order.specs.Sorted.{Small};
ghost use Rattle.order.specs.Listed.{InOrder};
ghost use Rattle.order.specs.Repeat.{linked as linked_by, repeats, Low, Seen};

use keys::{By, Keyed};

// Of relation lines one just behind its neighbour repeats nothing.
fn linked(by: By, j: usize, k: usize) -> bool
    requires { j < 4294967296 }
    ensures value { result ≡ linked_by by j k }
{
    by == By::Records && j + 1 == k
}

// The lesser of r and the line at place e + 1, where that repeats the one at place e; r is the number of lines until one does.
fn lesser(z: Keyed, f: &[u8], o: &[u32], m: usize, e: usize, r: usize) -> usize
    requires small { Small (keys_in z f.now) × (((sheet_of z.how f.now).count ≤ most_lines) × (e + 1 < m)) }
    requires in_order { InOrder z.by (sheet_of z.how f.now) o.now m × Seen z.by (sheet_of z.how f.now) r }
    ensures value { (result ≤ r) × (Low z.by (keys_in z f.now) o.now result e × Seen z.by (sheet_of z.how f.now) result) }
{
    let j = o[e] as usize;
    let k = o[e + 1] as usize;
    if k < r && !linked(z.by, j, k) && keys::same(z, f, j, k) {
        k
    } else {
        r
    }
}

// By one pass over the first m places of the order; the number of lines where there is none, as `least` of the rules has it.
pub fn first(z: Keyed, f: &[u8], o: &[u32], m: usize) -> usize
    requires small { Small (keys_in z f.now) × ((sheet_of z.how f.now).count ≤ most_lines) }
    requires in_order { InOrder z.by (sheet_of z.how f.now) o.now m }
    ensures value { result ≡ least (sheet_of z.how f.now).count (repeats z.by (sheet_of z.how f.now)) }
{
    let mut r = lines::line_count(z.how, f);
    for e in 1..m {
        r = lesser(z, f, o, m, e - 1, r);
    }
    r
}
