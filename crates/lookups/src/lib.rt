// Scores by what a lent table holds (01, Scores).
#![tactic(auto)]

pub mod pair_score;
pub mod query_score;
