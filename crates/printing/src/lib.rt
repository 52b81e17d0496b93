// A text printed: its basis, interpolant and wiring list, or its refusal.
#![tactic(auto)]

mod lines;
pub mod text;
