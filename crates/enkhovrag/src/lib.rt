// The C library: each function a few lines over the floors below. include/enkhovrag.h describes them to their callers.
#![tactic(auto)]

pub mod answers;
pub mod bench;
pub mod skid;
