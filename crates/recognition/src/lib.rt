// Whether lent tables are the basis of their points, the refusals that come before (settings, lengths and counts), the look at them with which calls begin, and
// where a named point stands among theirs.
#![tactic(auto)]

pub mod looking;
pub mod naming;
pub mod recognising;
pub mod settings;
