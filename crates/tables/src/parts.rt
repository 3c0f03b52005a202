// The parts of a query table: one for each block, of an entry for each layer point.
ghost use Rattle.std.specs.Prelude.{◌≡◌, ◌≤◌, nat_abs};
ghost use Rattle.layers.specs.Sizes.{Base};
ghost use Rattle.tables.specs.Tables.{query_most, part_size};

// The entries of one part: q^8.
pub fn part_size(q: i64) -> usize
    requires { Base q × (nat_abs q ≤ query_most) }
    ensures { result ≡ part_size (nat_abs q) }
{
    (q as usize).pow(8)
}
