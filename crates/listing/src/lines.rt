// Writing what is printed: numbers in decimal, and lines of a name and its numbers.
ghost use Rattle.std.specs.Prelude.{◌≡◌, [], ◌∷◌, map, ◌*◌, ◌^◌, ◌≤◌, pos, nat_abs, length};
ghost use Rattle.integers.specs.Vectors.{Bounded};
ghost use Rattle.layers.specs.Digits.{cut};
ghost use Rattle.listing.specs.Listing.{decimal, written, fields, line, layer_line, layer_lines};
ghost use Rattle.listing.specs.Pages.{HasRoom, Puts};

// The room that is lent for what is printed, and how much of it is used.
#[derive(Drop)]
pub(crate) struct Page<'a> {
    room: &'a mut [u8],
    pub(crate) used: usize,
}

impl<'a> Page<'a> {
    // A page on which nothing is put yet.
    pub(crate) fn new(room: &'a mut [u8]) -> Page<'a>
        ensures same_reference { result.room.ghost_name ≡ room.entry.ghost_name }
        ensures room { result.room.now ≡ room.old }
        ensures used { result.used ≡ 0 }
    {
        Page { room, used: 0 }
    }

    // Puts a byte.
    fn put(&mut self, b: u8)
        requires { HasRoom self.old 1 }
        ensures { Puts self.old self.new (b ∷ []) }
    {
        self.room[self.used] = b;
        self.used += 1;
    }

    // Puts bytes as they are.
    fn name(&mut self, name: &[u8])
        requires { HasRoom self.old (length name.now) }
        ensures { Puts self.old self.new name.now }
    {
        for b in name {
            self.put(*b);
        }
    }

    // Puts the decimal digits of n.
    fn decimal(&mut self, n: u64)
        requires { HasRoom self.old (length (decimal n)) }
        ensures { Puts self.old self.new (decimal n) }
    {
        if n >= 10 {
            self.decimal(n / 10);
        }
        self.put(b'0' + (n % 10) as u8);
    }

    // The same with a minus before a number below 0.
    fn number(&mut self, z: i64)
        requires { HasRoom self.old (length (written z)) }
        ensures { Puts self.old self.new (written z) }
    {
        if z < 0 {
            self.put(b'-');
        }
        self.decimal(z.unsigned_abs());
    }

    // Puts numbers, a space before each.
    fn fields(&mut self, l: &[i64])
        requires { HasRoom self.old (length (fields l.now)) }
        ensures { Puts self.old self.new (fields l.now) }
    {
        for z in l {
            self.put(b' ');
            self.number(*z);
        }
    }

    // Puts a line: its name, its numbers, a newline.
    pub(crate) fn line(&mut self, name: &[u8], l: &[i64])
        requires { HasRoom self.old (length (line name.now l.now)) }
        ensures { Puts self.old self.new (line name.now l.now) }
    {
        self.name(name);
        self.fields(l);
        self.put(b'\n');
    }

    // Puts the line of layer k.
    fn layer(&mut self, k: usize, ds: &[u8])
        requires { (k ≤ 256) × (length ds.now ≡ 8) × HasRoom self.old (length (layer_line k ds.now)) }
        ensures { Puts self.old self.new (layer_line k ds.now) }
    {
        self.line(b"layer", &layer_numbers(k, ds));
    }

    // Puts a line for each of m layers of digits.
    pub(crate) fn layers(&mut self, m: usize, ds: &[u8])
        requires { (m ≤ 256) × (length ds.now ≡ 8 * m) × HasRoom self.old (length (layer_lines 0 (cut 8 m ds.now))) }
        ensures { Puts self.old self.new (layer_lines 0 (cut 8 m ds.now)) }
    {
        for k in 0..m {
            self.layer(k, &ds[8 * k..8 * k + 8]);
        }
    }
}

// The numbers of a layer's line: its own number, then its eight digits.
fn layer_numbers(k: usize, ds: &[u8]) -> [i64; 9]
    requires { (k ≤ 256) × (length ds.now ≡ 8) }
    ensures { result ≡ pos k ∷ map pos ds.now }
{
    let mut l = [0; 9];
    l[0] = k as i64;
    for i in 0..8 {
        l[i + 1] = i64::from(ds[i]);
    }
    l
}
