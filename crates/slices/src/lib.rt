// Slices of the query table: in each part, the entries whose last digit is the same. Which half each layer point lies in is found once for all blocks; what the halves leave is summed for some digits at a time (01, Scores).
#![tactic(auto)]

mod choices;
mod sums;

// What is found of a slice once for all blocks: the choice of each entry as one number, and what is left of the first three coordinates by the low digits and of the other five by the high ones.
#[derive(Drop)]
pub struct Halves {
    pub choices: [u8; 16384],
    pub lows: [[i16; 3]; 256],
    pub highs: [[i16; 5]; 256],
}
