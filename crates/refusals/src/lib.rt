// When the unit says no: the refusals of document 01, and what settings and step lists must be.
#![tactic(auto)]

pub mod settings;
pub mod steps;

ghost use Rattle.std.specs.Prelude.{◌≡◌};
ghost use Rattle.refusals.specs.Verdicts.{row_of, spot_of, number_of, place_of};

// A name for each row of 01's table. What it carries is its place.
#[derive(Clone, Copy, Debug, PartialEq, Eq)]
pub enum Refusal {
    // 1: q, M or q^M outside limits.
    Settings,
    // 2: a step list outside its rule; the first list at fault.
    Steps(usize),
    // 3: a count or a length not allowed; 0 input, 1 output, 2 table.
    Size(usize),
    // 4: a missing reading; its index.
    Missing(usize),
    // 5: a reading out of range; its index.
    OutOfRange(usize),
    // 6: no listed step fits a block; the first such block.
    Overload(usize),
    // 7: a digit at least q, or T past the list; the least such byte.
    Byte(usize),
    // 8: a table asked for a q it isn't for.
    Table,
    // 9: not a doubled point, or past its limits.
    Point,
    // 10: a dimension wrong or a record cut short; the record's byte offset.
    Record(usize),
    // 11: an empty store.
    EmptyStore,
}

impl Refusal {
    // The number of its row.
    pub fn number(self) -> usize
        ensures { result ≡ row_of self }
    {
        match self {
            Refusal::Settings => 1,
            Refusal::Steps(_) => 2,
            Refusal::Size(_) => 3,
            Refusal::Missing(_) => 4,
            Refusal::OutOfRange(_) => 5,
            Refusal::Overload(_) => 6,
            Refusal::Byte(_) => 7,
            Refusal::Table => 8,
            Refusal::Point => 9,
            Refusal::Record(_) => 10,
            Refusal::EmptyStore => 11,
        }
    }

    // The place that it names, 0 where its row has none.
    pub fn place(self) -> usize
        ensures { result ≡ spot_of self }
    {
        match self {
            Refusal::Settings => 0,
            Refusal::Steps(p) => p,
            Refusal::Size(p) => p,
            Refusal::Missing(p) => p,
            Refusal::OutOfRange(p) => p,
            Refusal::Overload(p) => p,
            Refusal::Byte(p) => p,
            Refusal::Table => 0,
            Refusal::Point => 0,
            Refusal::Record(p) => p,
            Refusal::EmptyStore => 0,
        }
    }
}

// The number of an answer: 0 where nothing is refused.
pub fn number_of<T: Copy>(v: Result<T, Refusal>) -> usize
    ensures { result ≡ number_of v }
{
    v.map_or_else(Refusal::number, |_| 0)
}

// Its place, 0 where nothing is refused.
pub fn place_of<T: Copy>(v: Result<T, Refusal>) -> usize
    ensures { result ≡ place_of v }
{
    v.map_or_else(Refusal::place, |_| 0)
}
