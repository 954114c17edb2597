// Marks at the places of an array.
ghost use Rattle.std.specs.Prelude.{◌≡◌, ◌&&◌, ◌≤◌, eqb, leb, length};
ghost use Rattle.rules.specs.Places.{some};
ghost use Rattle.order.specs.Sorted.{nth};
ghost use Rattle.once.specs.Covered.{Spanned};

// A place from lo on and before hi holds v. It looks at all of them, so that they are compared many at a time.
pub fn is_marked(t: &[u32], lo: usize, hi: usize, v: u32) -> bool
    requires { hi ≤ length t.now }
    ensures value { result ≡ some hi (λ e. leb lo e && eqb (nth t.now e) v) }
{
    let mut found = false;
    for e in lo..hi {
        found |= t[e] == v;
    }
    found
}

// Puts v at the places from lo on and before hi; there are none where hi is below lo, so no part of t is cut out and filled.
pub fn mark(t: &mut [u32], lo: usize, hi: usize, v: u32)
    requires { hi ≤ length t.old }
    ensures written { Spanned lo hi v t.old t.new }
{
    for e in lo..hi {
        t[e] = v;
    }
}
