// Points: from levels, in tables, and gathered with their counts; and the weights of the settings, which calls and the reader of text judge alike.
#![tactic(auto)]

pub mod gathering;
pub mod leaving;
pub mod levels;
pub mod places;
pub mod weights;
