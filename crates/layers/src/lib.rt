// Points of E8 in layers of digits, and back (01, Layers and steps).
#![tactic(auto)]

pub mod digits;
pub mod lookup;
pub mod points;
pub mod table;
