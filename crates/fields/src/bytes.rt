// Columns as bytes: blanks, an index, two bytes.
ghost use Rattle.std.specs.Prelude.{◌≡◌, ◌+◌, ◌==◌, List, [], ◌∷◌, ◌≤◌, eqb};
ghost use Rattle.std.specs.List.{list_all};
ghost use Rattle.rules.specs.Text.{cols, blank as is_blank, same as is_same};
ghost use Rattle.rules.specs.Kinds.{index_of};

// Columns a to b, none where b is before a.
#[tactic(auto, using(crate::proofs::Columns::none_is_cols, crate::proofs::Columns::part_is_cols))]
pub(crate) fn columns(l: &[u8; 80], a: usize, b: usize) -> &[u8]
    requires { (1 ≤ a) × (b ≤ 80) }
    ensures value { result.now ≡ cols l.now a b }
{
    if b < a {
        return &[];
    }
    &l[a - 1..b]
}

fn all_blank(columns: &[u8]) -> bool
    ensures value { result ≡ list_all (λ b. b == 32) columns.now }
{
    columns.iter().all(|b| *b == b' ')
}

// Blanks alone.
pub fn blank(l: &[u8; 80], a: usize, b: usize) -> bool
    requires { (1 ≤ a) × (b ≤ 80) }
    ensures value { result ≡ is_blank (cols l.now a b) }
{
    all_blank(columns(l, a, b))
}

// The value of an index: blank is 1. Of a byte below 0 there is none, and 0 is answered.
#[tactic(auto, unfolding(rules::specs::Kinds::index_of, rules::specs::Places::pick))]
pub fn index_of(b: u8) -> u8
    ensures value { result ≡ index_of b }
{
    if b == b' ' {
        return 1;
    }
    b.saturating_sub(b'0')
}

// Two bytes are two others.
#[tactic(auto, unfolding(rules::specs::Text::same))]
pub fn two(b: u8, d: u8, x: u8, y: u8) -> bool
    ensures value { result ≡ is_same (b ∷ d ∷ []) (x ∷ y ∷ []) }
{
    b == x && d == y
}
