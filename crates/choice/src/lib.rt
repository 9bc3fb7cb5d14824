// What hangs on a test: choices and rows of tests, as every crate's definitions write them. There is
// no code here, only definitions and their laws.
#![tactic(auto)]
