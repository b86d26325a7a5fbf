// Standard input read whole, and a text written whole: what follows from each call of read and write, which may be interrupted, short, or fail.
#![tactic(auto)]

pub mod call;
pub mod read;
pub mod write;
