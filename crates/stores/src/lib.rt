// The best hour: the greatest query score over the records of a store (01, Scores).
#![tactic(auto)]

pub mod checks;
pub mod search;
pub mod tabled;

ghost use Rattle.std.specs.Prelude.{◌≡◌};
ghost use Rattle.stores.specs.Stores.{better};

// The best record so far: its number from 0, and its score in halves of 1/1024 squared.
#[derive(Clone, Copy)]
pub struct Best {
    pub hour: usize,
    pub score: i64,
}

// The hour i in place of the best one so far, where its score z is greater; on equality the earlier one stays.
pub(crate) fn better(best: Best, i: usize, z: i64) -> Best
    ensures { result ≡ better best i z }
{
    if best.score < z {
        Best { hour: i, score: z }
    } else {
        best
    }
}
