// Call scripts (tests/CALLS.md): what a script's bytes say, the two pools of words, which of them a call is lent, who makes it, and the rights of an opening.
#![tactic(auto)]

pub mod kind;
pub mod lent;
pub mod pool;
pub mod roles;
pub mod script;
