// Scores of code records (01, Scores).
#![tactic(auto)]

pub mod codes;
pub mod hours;
pub mod inner;
pub mod pair;
pub mod query;
