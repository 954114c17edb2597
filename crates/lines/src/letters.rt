// The letters of the files. A file is its number, as a refusal tells it, in place of an enum: the form of a file is asked of every number.
ghost use Rattle.std.specs.Prelude.{◌≡◌};
ghost use Rattle.rules.specs.Lines.{letter as letter_of, kind_of};

// The letter of file i: R 1, S 2, X any other.
pub fn letter(i: u8) -> u8
    ensures value { result ≡ letter_of i }
{
    if i == 1 {
        return b'R';
    }
    if i == 2 {
        return b'S';
    }
    b'X'
}

// The file of a letter, and the kind of codes that it uses: R 1, S 2, X 3; 0 of any other number, which is not cut. It is 0 and not None, since
// the rules of a line that is written go on with it.
pub fn kind_of(letter: u64) -> u8
    ensures value { result ≡ kind_of letter }
{
    match letter {
        82 => 1,
        83 => 2,
        88 => 3,
        _ => 0,
    }
}
