// Code page 037, as far as a tape takes it: the character of each byte, 0 for one that is not taken. Sixteen bytes a row.
ghost use Rattle.std.specs.Prelude.{◌≡◌, ℕ, ◌<◌, ◌≤◌, true, ◌≢◌, slice_index};
ghost use Rattle.rules.specs.Tape.{page, char_in, byte_in};
ghost use Rattle.rules.specs.Names.{ranked};
ghost use Rattle.lines.specs.Reading.{IsPage};

const CHARS: [u8; 256] = [
    0, 0, 0, 0, 0, 0, 0, 0, 0, 0, 0, 0, 0, 0, 0, 0, 0, 0, 0, 0, 0, 0, 0, 0, 0, 0, 0, 0, 0, 0, 0, 0,
    0, 0, 0, 0, 0, 0, 0, 0, 0, 0, 0, 0, 0, 0, 0, 0, 0, 0, 0, 0, 0, 0, 0, 0, 0, 0, 0, 0, 0, 0, 0, 0,
    32, 0, 0, 0, 0, 0, 0, 0, 0, 0, 0, 46, 60, 40, 43, 0, 38, 0, 0, 0, 0, 0, 0, 0, 0, 0, 0, 0, 42,
    41, 59, 0, 45, 47, 0, 0, 0, 0, 0, 0, 0, 0, 0, 44, 37, 95, 62, 63, 0, 0, 0, 0, 0, 0, 0, 0, 0, 0,
    58, 0, 0, 39, 61, 0, 0, 97, 98, 99, 100, 101, 102, 103, 104, 105, 0, 0, 0, 0, 0, 0, 0, 106,
    107, 108, 109, 110, 111, 112, 113, 114, 0, 0, 0, 0, 0, 0, 0, 0, 115, 116, 117, 118, 119, 120,
    121, 122, 0, 0, 0, 0, 0, 0, 0, 0, 0, 0, 0, 0, 0, 0, 0, 0, 0, 0, 0, 0, 0, 0, 0, 65, 66, 67, 68,
    69, 70, 71, 72, 73, 0, 0, 0, 0, 0, 0, 0, 74, 75, 76, 77, 78, 79, 80, 81, 82, 0, 0, 0, 0, 0, 0,
    0, 0, 83, 84, 85, 86, 87, 88, 89, 90, 0, 0, 0, 0, 0, 0, 48, 49, 50, 51, 52, 53, 54, 55, 56, 57,
    0, 0, 0, 0, 0, 0,
];

// The character of a byte, or 0.
pub fn char_of(b: u8) -> u8
    ensures value { result ≡ char_in page b }
{
    CHARS[b as usize]
}

// The same, where the page is at hand.
fn look(chars: &[u8; 256], b: u8) -> u8
    requires { IsPage chars.now }
    ensures value { result ≡ char_in page b }
{
    chars[b as usize]
}

// The characters of a line's bytes.
pub fn translated(l: [u8; 80]) -> [u8; 80]
    ensures value { result ≡ ranked (char_in page) l }
{
    let chars = CHARS;
    let mut t = [0; 80];
    for c in 0..80 {
        t[c] = look(&chars, l[c]);
    }
    t
}

// Each of these is a character.
pub fn all_taken(t: [u8; 80]) -> bool
    ensures value { result ≡ true → (c : ℕ) → c < 80 → slice_index t c ≢ 0 }
{
    t.iter().all(|c| *c != 0)
}

// The byte of a capital letter.
pub fn capital(c: u8) -> u8
    requires { (65 ≤ c) × (c ≤ 90) }
    ensures value { result ≡ byte_in page c }
{
    if c < b'J' {
        return c + 128;
    }
    if c < b'S' {
        return c + 135;
    }
    c + 143
}
