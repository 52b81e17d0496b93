// Lists of small numbers as canonical JSON (RFC 8785), written and read.
#![tactic(auto)]

mod document_parts;
pub mod document_text;
pub mod documents;
mod lists;
mod members;
mod reading;
