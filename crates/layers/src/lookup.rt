// A layer looked up in a table, by the number that its digits make.
ghost use Rattle.std.specs.Prelude.{◌≡◌, ◌+◌, ◌<◌, ◌≤◌, length, take, drop};
ghost use Rattle.layers.specs.Digits.{Below, IsLayer, entry_of, powers};
ghost use Rattle.layers.specs.E8.{layer_point8};
ghost use Rattle.layers.specs.Table.{layer_table};

// Four digits as one word, a byte each, the first least.
fn four(ds: &[u8], at: usize) -> usize
    requires { at + 4 ≤ length ds.now }
    ensures { result ≡ entry_of 256 (take 4 (drop at ds.now)) }
{
    integers::wide(ds[at])
        + 256 * integers::wide(ds[at + 1])
        + 65536 * integers::wide(ds[at + 2])
        + 16777216 * integers::wide(ds[at + 3])
}

// The powers of q as one word, a byte each, the first greatest.
fn powers(q: usize) -> usize
    requires { q ≤ 4 }
    ensures { result ≡ powers q }
{
    16777216 + 65536 * q + 256 * (q * q) + q * q * q
}

// The entry number of four digits: the product of the two words has it in its fourth byte, since nothing is carried there.
fn half_number(ds: &[u8], at: usize, q: usize) -> usize
    requires { (at + 4 ≤ length ds.now) × (q ≤ 4) × Below q ds.now }
    ensures { (result ≡ entry_of q (take 4 (drop at ds.now))) × (result < 256) }
{
    four(ds, at) * powers(q) / 16777216 % 256
}

// The entry number of eight digits below 2 by one product: the second four join the first, each 16 times, and still nothing is carried.
fn number_of_two(ds: &[u8]) -> usize
    requires { IsLayer 8 2 ds.now }
    ensures { result ≡ entry_of 2 ds.now }
{
    (four(ds, 0) + 16 * four(ds, 4)) * powers(2) / 16777216 % 256
}

// The entry number of a layer's digits, the first digit least.
pub fn entry_number(ds: &[u8], q: usize) -> usize
    requires { IsLayer 8 q ds.now × (q ≤ 4) }
    ensures { result ≡ entry_of q ds.now }
{
    if q == 2 {
        return number_of_two(ds);
    }
    half_number(ds, 0, q) + q * q * q * q * half_number(ds, 4, q)
}

// The layer point of eight digits below 2, from the table.
pub fn table_point(t: &[i8], ds: &[u8]) -> [i16; 8]
    requires { (t.now ≡ layer_table) × IsLayer 8 2 ds.now }
    ensures { result ≡ layer_point8 2 ds.now }
{
    let at = 8 * entry_number(ds, 2);
    let row = &t[at..at + 8];
    std::array::from_fn(|k| i16::from(row[k]))
}
