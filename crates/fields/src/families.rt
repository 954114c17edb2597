// The codes of points: one row a family, in the order of the standard's lists at H600 and H700.
ghost use Rattle.std.specs.Prelude.{◌≡◌, [], ◌∷◌};
ghost use Rattle.std.specs.List.{list_any};
ghost use Rattle.rules.specs.Kinds.{is_code, digit1 as is_digit1};
ghost use Rattle.fields.specs.Families.{families, stands_in, followed_by, taken_by};

// What follows a family's letter: a digit 1-9, or a second letter.
#[derive(Clone, Copy, Debug, PartialEq, Eq)]
pub enum Second {
    Digit,
    Letter(u8),
}

// The files in which a family may stand.
#[derive(Clone, Copy, Debug, PartialEq, Eq)]
pub enum Files {
    Receivers,
    Sources,
    Both,
}

// A family of codes: its letter, what follows it, and its files.
#[derive(Clone, Copy, Debug, PartialEq, Eq)]
pub struct Family(pub u8, pub Second, pub Files);

const FAMILIES: [Family; 10] = [
    Family(b'G', Second::Digit, Files::Receivers), // geophones
    Family(b'H', Second::Digit, Files::Receivers), // hydrophones
    Family(b'R', Second::Digit, Files::Receivers), // multi-component and other receivers
    Family(b'V', Second::Digit, Files::Sources), // vibroseis
    Family(b'E', Second::Digit, Files::Sources), // explosive
    Family(b'A', Second::Digit, Files::Sources), // air gun
    Family(b'W', Second::Digit, Files::Sources), // water gun
    Family(b'S', Second::Digit, Files::Sources), // other sources
    Family(b'P', Second::Letter(b'M'), Files::Both), // permanent marker
    Family(b'K', Second::Letter(b'L'), Files::Both), // killed or omitted
];

// A family of these files may stand in file i: R 1, S any other.
fn stands_in(files: Files, i: u8) -> bool
    ensures value { result ≡ stands_in files i }
{
    match files {
        Files::Receivers => i == 1,
        Files::Sources => i != 1,
        Files::Both => true,
    }
}

// A digit 1-9.
#[tactic(auto, unfolding(rules::specs::Kinds::digit1))]
pub fn digit1(b: u8) -> bool
    ensures value { result ≡ is_digit1 b }
{
    49 <= b && b <= 57
}

// The byte d is what follows the letter.
fn followed_by(second: Second, d: u8) -> bool
    ensures value { result ≡ followed_by second d }
{
    match second {
        Second::Digit => digit1(d),
        Second::Letter(x) => d == x,
    }
}

// The bytes b and d are a code of the family, in file i.
fn is_of(w: Family, i: u8, b: u8, d: u8) -> bool
    ensures value { result ≡ taken_by i b d w }
{
    let Family(letter, second, files) = w;
    b == letter && stands_in(files, i) && followed_by(second, d)
}

fn any_takes(i: u8, b: u8, d: u8) -> bool
    ensures value { result ≡ list_any (taken_by i b d) families }
{
    FAMILIES.iter().any(|w| is_of(*w, i, b, d))
}

// The bytes b and d are a code of file i: a code of one of the families.
#[tactic(auto, using(crate::proofs::Rows::rows_decide))]
pub fn is_code(i: u8, b: u8, d: u8) -> bool
    ensures value { result ≡ is_code i (b ∷ d ∷ []) }
{
    any_takes(i, b, d)
}
