// E8, held doubled: membership and the basis (01, The lattice).
#![tactic(auto)]

pub mod basis;
pub mod lent;
pub mod member;

// A coordinate is at most 2^26 in magnitude.
pub const POINT_MOST: i32 = 67108864;
