// The register map: fields, which writes and reads are let through, codes and offsets.
#![tactic(auto)]

pub mod access;
pub mod codes;
pub mod fields;
