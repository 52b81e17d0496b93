// How a text writes things: fields of comma-separated records (`fields`), numbers (`digits`), the last header field (`forms`).
#![tactic(auto)]

pub mod digits;
pub mod fields;
pub mod forms;
