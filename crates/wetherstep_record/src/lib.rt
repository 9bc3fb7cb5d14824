// The look at a record for C: include/wetherstep.h tells a C caller of it. It decides nothing.
#![tactic(auto)]

pub mod face;
