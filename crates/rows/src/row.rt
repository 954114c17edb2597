// A row of sixteen bytes: four numbers of 32 bits, low byte first.
ghost use Rattle.std.specs.Prelude.{◌≡◌, ◌++◌, ◌+◌, ◌≤◌, length};
ghost use Rattle.rules.specs.Hosts.{low_bytes};
ghost use Rattle.rows.specs.Spliced.{spliced};

// Puts a number at four bytes.
fn put_four(v: u32, at: usize, bytes: &mut [u8])
    requires { at + 4 ≤ length bytes.old }
    ensures written { bytes.new ≡ spliced at (low_bytes 4 v) bytes.old }
{
    bytes[at..at + 4].copy_from_slice(&v.to_le_bytes());
}

// Puts four numbers at sixteen bytes.
pub fn put(a: u32, b: u32, c: u32, d: u32, at: usize, bytes: &mut [u8])
    requires { at + 16 ≤ length bytes.old }
    ensures written { bytes.new
        ≡ spliced at (low_bytes 4 a ++ (low_bytes 4 b ++ (low_bytes 4 c ++ low_bytes 4 d))) bytes.old }
{
    put_four(a, at, bytes);
    put_four(b, at + 4, bytes);
    put_four(c, at + 8, bytes);
    put_four(d, at + 12, bytes);
}
