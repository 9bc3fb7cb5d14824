// The job's calls for C: include/wetherstep.h tells a C caller of them. They decide nothing.
#![tactic(auto)]

pub mod face;
