#![tactic(auto)]
// Calls for the tests of the hosts: what a line shows, what a line or a file is refused for, and the values of a line. They only carry
// over to numbers and slices what the readers answer: a host of C gets no Result.
ghost use Rattle.std.specs.Prelude.{◌≡◌, length};
ghost use Rattle.rules.specs.Plan.{run};
ghost use Rattle.rules.specs.Layout.{sps93};
ghost use Rattle.rules.specs.Disc.{file};
ghost use Rattle.rules.specs.Form.{form as form_of};
ghost use Rattle.rules.specs.Show.{show as show_of};
ghost use Rattle.rules.specs.Points.{point as point_values};
ghost use Rattle.rules.specs.Relations.{relation as relation_values};
ghost use Rattle.rules.specs.Carried.{point_places, relation_places};
ghost use Rattle.lines.specs.Paper.{paper};
ghost use Rattle.form.specs.Steps.{fields_of};
ghost use Rattle.texts.specs.Buffer.{over};
ghost use Rattle.probe.specs.Host.{told as told_of};

use lines::Verdict;
use records::{point, relation};
use values::places;

// Shows line n of the file of that letter: its columns stand in the first places of out, where they have room. Answers how many
// columns there are.
#[unsafe(no_mangle)]
pub extern "C" fn probe_show<'a>(
    r: &'a [u8],
    s: &'a [u8],
    letter: u8,
    n: usize,
    out: &mut [u8],
) -> u64
    ensures value { result ≡ length (show_of r.now s.now letter n) }
    ensures written { out.new ≡ over (show_of r.now s.now letter n) out.old }
{
    let p = lines::show(r, s, letter, n);
    texts::place(p, out);
    p.len() as u64
}

// The number of a verdict's refusal; 0 where it is fine.
#[tactic(auto, unfolding(crate::specs::Host::told, rules::specs::Hosts::packed))]
fn told(v: Verdict) -> u64
    ensures value { result ≡ told_of (paper v) }
{
    match v {
        Ok(()) => 0,
        Err(e) => {
            u64::from(e.number) * 1099511627776
                + u64::from(e.file) * 4294967296
                + u64::from(e.line) * 256
                + u64::from(e.column)
        }
    }
}

// What a line of file i is refused for: 5, and a relation line that obeys it 6.
#[unsafe(no_mangle)]
pub extern "C" fn probe_line(line: &[u8; 80], i: u8) -> u64
    ensures verdict { result ≡ told_of (run (fields_of sps93 i 0 line.now)) }
{
    told(form::fields_fit(line, i, 0))
}

// What file i is refused for: 1 to 6.
#[tactic(auto, unfolding(lines::specs::Reading::sheet_of))]
#[unsafe(no_mangle)]
pub extern "C" fn probe_form(f: &[u8], i: u8) -> u64
    ensures verdict { result ≡ told_of (run (form_of i (file f.now))) }
{
    told(form::file_fits(lines::disc(), f, i))
}

// The sixteen numbers of a point line.
#[tactic(auto, using(values::proofs::Carried::point_places_lem))]
#[unsafe(no_mangle)]
pub extern "C" fn probe_point(line: &[u8; 80], numbers: &mut [u64; 16])
    ensures written { numbers.new ≡ point_places (point_values sps93 line.now) }
{
    *numbers = places::point_places(point::point_of(line));
}

// Those of a relation line.
#[tactic(auto, using(values::proofs::Carried::relation_places_lem))]
#[unsafe(no_mangle)]
pub extern "C" fn probe_relation(line: &[u8; 80], numbers: &mut [u64; 16])
    ensures written { numbers.new ≡ relation_places (relation_values sps93 line.now) }
{
    *numbers = places::relation_places(relation::relation_of(line));
}
