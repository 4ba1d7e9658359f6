// Calls over a trace: where instruction k stands, its rows and its claim. Each checks the trace once and then goes cycle by cycle.
#![tactic(auto)]

pub mod admit;
pub mod place;
