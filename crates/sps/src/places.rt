// Numbers in a byte slice: places of eight bytes, low byte first.
ghost use Rattle.std.specs.Prelude.{◌≡◌, [], ◌∷◌, ◌+◌, ◌*◌, ◌≤◌, length};
ghost use Rattle.sps.specs.Counts.{placed, placed_from};
ghost use Rattle.sps.specs.Said.{read_at};
ghost use Rattle.sps.specs.Values.{Sixteen};

// Puts a number at place i, where the slice has that whole.
pub fn put(v: u64, i: usize, bytes: &mut [u8])
    ensures written { bytes.new ≡ placed_from i (v ∷ []) bytes.old }
{
    if i < bytes.len() / 8 {
        bytes[8 * i..8 * i + 8].copy_from_slice(&v.to_le_bytes());
    }
}

// Puts numbers at the first places, as far as the slice has these.
pub fn put_all(numbers: &[u64], bytes: &mut [u8])
    ensures written { bytes.new ≡ placed numbers.now bytes.old }
{
    for i in 0..numbers.len() {
        put(numbers[i], i, bytes);
    }
}

// The number at place i.
fn get(i: usize, bytes: &[u8]) -> u64
    requires { 8 * i + 8 ≤ length bytes.now }
    ensures value { result ≡ read_at i bytes.now }
{
    let mut place = [0; 8];
    place.copy_from_slice(&bytes[8 * i..8 * i + 8]);
    u64::from_le_bytes(place)
}

// The numbers at the sixteen places of a slice.
pub fn get_all(bytes: &[u8]) -> [u64; 16]
    requires { length bytes.now ≡ 128 }
    ensures value { Sixteen result bytes.now }
{
    let mut numbers = [0; 16];
    for i in 0..16 {
        numbers[i] = get(i, bytes);
    }
    numbers
}
