// The pages of enclaves in memory: clearing them, and measuring them with a digest.
#![tactic(auto)]

pub mod clear;
pub mod measure;
