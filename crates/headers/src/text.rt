// The text of a header line: whether it names a projection, cut before the first semicolon and freed of outer blanks.
ghost use Rattle.std.specs.Prelude.{◌≡◌, ◌-◌, ◌≤◌, get_or};
ghost use Rattle.rules.specs.Text.{cols, blank as is_blank};
ghost use Rattle.rules.specs.Headers.{cut};
ghost use Rattle.headers.specs.Steps.{names};

// Only blanks stand from column a on, up to a semicolon or the end. It is a loop, since either a semicolon or another byte ends it.
#[tactic(auto, using(crate::proofs::Projection::ends_told))]
fn ends(l: &[u8; 80], a: usize) -> bool
    requires { 1 ≤ a }
    ensures value { result ≡ is_blank (cut (cols l.now a 80)) }
{
    for c in a..81 {
        if l[c - 1] == b';' {
            return true;
        }
        if l[c - 1] != 32 {
            return false;
        }
    }
    true
}

// Whether the text from column c on, where no blank stands, names a projection: something, and not N/A.
#[tactic(auto, using(crate::proofs::Projection::names_told))]
fn names_at(l: &[u8; 80], c: usize) -> bool
    requires { (1 ≤ c) × ((c ≤ 80) × (get_or l.now (c - 1) 0 ≡ 32 → ⊥)) }
    ensures value { result ≡ names (cols l.now c 80) }
{
    l[c - 1] != b';'
        && !(l[c - 1] == b'N' && c <= 78 && l[c] == b'/' && l[c + 1] == b'A' && ends(l, c + 3))
}

// Whether the text in columns 33-80 names a projection.
#[tactic(auto, using(crate::proofs::Projection::blanks_before))]
pub fn names_projection(l: &[u8; 80]) -> bool
    ensures value { result ≡ names (cols l.now 33 80) }
{
    for c in 33..81 {
        if l[c - 1] != 32 {
            return names_at(l, c);
        }
    }
    false
}
