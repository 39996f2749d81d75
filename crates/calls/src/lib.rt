// The calls of a host, and which of them are refused (01's table).
#![tactic(auto)]

pub mod table;
pub mod types;
