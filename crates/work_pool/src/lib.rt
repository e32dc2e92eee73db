//! Workers: jobs are dealt out to passes, served by a thread for each, and answered in their own order.
#![tactic(auto)]

mod collecting;
mod dealing;
mod desk;
mod feed;
mod feeding;
mod gate;
mod hand;
mod line;
mod placing;
mod room;
mod run;
mod seat;
mod seating;
mod server;
mod streamed;
mod streaming;
mod worked;

pub use desk::Desk;
pub use feed::Feed;
pub use gate::{Gate, OpenGate};
pub use run::run_jobs;
pub use streamed::Streamed;
pub use streaming::run_feed;
pub use worked::Worked;
