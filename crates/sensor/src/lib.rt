// The sensor record and what happens to it as a whole: image, acquisition, automatic mode, soft reset, reads, select
// (devices/bma150.rs, bma150/control.rs).
#![tactic(auto)]

pub mod image;
pub mod mode;
pub mod record;
pub mod register_reads;
pub mod select;
pub mod types;
