// The rows of one relation line, as far as they have places.
ghost use Rattle.std.specs.Prelude.{◌≡◌, ◌*◌, ◌-◌, length};
ghost use Rattle.rules.specs.Relations.{Reach as PaperReach};
ghost use Rattle.records.specs.Coded.{coded_reach};
ghost use Rattle.rows.specs.Spliced.{spliced};
ghost use Rattle.rows.specs.Parts.{part_rows, Fitting};

use crate::row;
use records::cover;
use records::relation::Reach;
use spread::led;

// The number of the line, the first channel that is put, its place, and the place after the last one's.
#[derive(Clone, Copy, Debug, PartialEq, Eq)]
pub struct Part {
    pub line: u32,
    pub channel: usize,
    pub place: usize,
    pub end: usize,
}

// Puts the rows of that part of q, whose lowest receiver stands in row e of o; t marks the rows that are killed.
pub fn put(q: Reach, o: &[u32], t: &[u32], e: usize, p: Part, places: &mut [u8])
    requires { Fitting q o.now t.now e p (length places.old) }
    ensures written { (v : PaperReach) → q ≡ coded_reach v → places.new
        ≡ spliced (16 * p.place) (part_rows p.line o.now t.now e v p.channel (p.end - p.place)) places.old }
{
    for i in p.place..p.end {
        let c = p.channel + (i - p.place);
        let j = led::row_to(q, o, e, c);
        let last = cover::component(q, c as u64) as u32 + 256 * t[j];
        row::put(p.line, c as u32, o[j] + 1, last, 16 * i, places);
    }
}
