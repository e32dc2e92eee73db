//! The word that counts what was acknowledged, and what passes know of the entries behind it.
#![tactic(auto)]

mod front;
mod law;
mod pass;
mod plays;
mod view;
mod writer;

pub use front::Front;
pub use pass::Pass;
pub use view::{Act, Kept, Of, Role, View};
pub use writer::Writer;
