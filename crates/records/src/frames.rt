// The frame of a record: its dimension, and whether all of it is there (01, Bytes).
ghost use Rattle.std.specs.Prelude.{◌≡◌, ◌<◌, ◌≤◌};
ghost use Rattle.records.specs.Frames.{whole_blocks, good_record};

use readings::words;

// K, the number of blocks, is 1 to 64.
pub const BLOCKS_MOST: usize = 64;

// Whether n is K times size, with K from least to most.
pub fn whole_blocks(n: usize, size: usize, least: usize, most: usize) -> bool
    requires { 0 < size }
    ensures { result ≡ whole_blocks size least most n }
{
    if n % size == 0 {
        if n / size < least {
            false
        } else {
            n / size <= most
        }
    } else {
        false
    }
}

// Whether a record of entries of `width` bytes has its dimension, K times size with K from least to most, and all its entries.
pub fn good_record(b: &[u8], width: usize, size: usize, least: usize, most: usize) -> bool
    requires { (0 < size) × (width ≤ 4) }
    ensures { result ≡ good_record width size least most b.now }
{
    if b.len() < 4 {
        return false;
    }
    let n = words::word_at(b, 0) as usize;
    if whole_blocks(n, size, least, most) {
        4 + width * n <= b.len()
    } else {
        false
    }
}
