// Records of readings and of codes: their frames, their readings, the one check of a code record, and its points (01, Bytes).
#![tactic(auto)]

pub mod asked;
pub mod codes;
pub mod frames;
pub mod vectors;
