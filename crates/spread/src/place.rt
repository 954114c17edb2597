// How a lent slice takes the R line of a channel at its place: as a number, or as two bytes, low byte first.
ghost use Rattle.std.specs.Prelude.{◌≡◌, ℕ, ◌<◌, ◌≤◌, List};
ghost use Rattle.rules.specs.Spread.{place, byte_place, turns, Put};
ghost use Rattle.spread.specs.Puts.{Puts, same, numbers, bytes, count, half};

// A slice of places, each of which takes one R line.
pub trait Places {
    // What the slice is made of.
    type Unit: Copy;

    // The slice as the rules have it, a list of numbers.
    ghost held: { List Self.Unit → List ℕ };

    // What is written at a place.
    ghost puts: { Put };

    // How many places there are.
    ghost room: { List ℕ → ℕ };

    fn room(places: &[Self::Unit]) -> usize
        ensures value { result ≡ room (held places.now) };

    // Puts 0 at the first h places.
    fn clear(h: usize, places: &mut [Self::Unit])
        requires { h ≤ room (held places.old) }
        ensures written { held places.new ≡ turns (puts (λ _. 0)) h (held places.old) };

    // Puts a line at a place, from 0.
    fn put(places: &mut [Self::Unit], at: usize, line: u16)
        requires { at < room (held places.old) }
        ensures written { held places.new ≡ puts (λ _. line) at (held places.old) };

    // What each `impl` must prove: two slices that are read alike are the same, places are put apart, and a put keeps how many there are.
    ghost laws: { Puts held puts room };
}

// A number a place.
#[derive(Clone, Copy, Debug, PartialEq, Eq)]
pub struct Numbers;

impl Places for Numbers {
    type Unit = u16;

    ghost held = { same };

    ghost puts = { place };

    ghost room = { count };

    ghost laws = { numbers };

    fn room(places: &[u16]) -> usize {
        places.len()
    }

    fn clear(h: usize, places: &mut [u16]) {
        places[..h].fill(0);
    }

    fn put(places: &mut [u16], at: usize, line: u16) {
        places[at] = line;
    }
}

// Two bytes a place, low byte first; an odd last byte is none.
#[derive(Clone, Copy, Debug, PartialEq, Eq)]
pub struct Bytes;

impl Places for Bytes {
    type Unit = u8;

    ghost held = { same };

    ghost puts = { byte_place };

    ghost room = { half };

    ghost laws = { bytes };

    fn room(places: &[u8]) -> usize {
        places.len() / 2
    }

    fn clear(h: usize, places: &mut [u8]) {
        places[..2 * h].fill(0);
    }

    fn put(places: &mut [u8], at: usize, line: u16) {
        places[2 * at..2 * at + 2].copy_from_slice(&line.to_le_bytes());
    }
}
