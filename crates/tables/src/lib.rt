// Tables of scores, filled (01, Scores).
#![tactic(auto)]

pub mod pair_table;
pub mod parts;
pub mod query_table;
