// Little-endian 32-bit words in bytes: the readings of an fvecs record.
ghost use Rattle.std.specs.Prelude.{◌≡◌, ◌+◌, ◌<◌, ◌≤◌, ◌^◌, nat_abs, ◌*ℤ◌, length};
ghost use Rattle.readings.specs.Words.{word_at, put_word, measure_at, put_decoded};

// The word at i.
pub fn word_at(b: &[u8], i: usize) -> u32
    requires { i + 4 ≤ length b.now }
    ensures { result ≡ word_at b.now i }
{
    u32::from_le_bytes([b[i], b[i + 1], b[i + 2], b[i + 3]])
}

// Writes the word w at i; every other byte stays.
pub fn put_word(b: &mut [u8], i: usize, w: u32)
    requires { i + 4 ≤ length b.old }
    ensures { b.new ≡ put_word b.old i w }
{
    b[i..i + 4].copy_from_slice(&w.to_le_bytes());
}

// The reading whose binary32 pattern stands at i.
pub fn measure_at(b: &[u8], i: usize) -> Result<i32, crate::Fault>
    requires { i + 4 ≤ length b.now }
    ensures { result ≡ measure_at b.now i }
{
    crate::measure_bits(word_at(b, i))
}

// Writes the decoded reading s·e/2048 at i, as its binary32 pattern; every other byte stays.
pub fn put_decoded(b: &mut [u8], i: usize, s: i64, e: i64)
    requires i_in_bounds { i + 4 ≤ length b.old }
    requires e_bound { nat_abs (s *ℤ e) ≤ 2 ^ 24 }
    ensures { b.new ≡ put_decoded b.old i s e }
{
    put_word(b, i, f32::to_bits(crate::exact::decoded_value(s, e)));
}
