//! Connections are served: what comes of one request, how its reply is written, how the serving ends, and the definitions of
//! all that, whoever answers.
#![tactic(auto)]

mod served;
mod steps;
mod writing;

pub use served::Served;
pub use steps::{Came, MOST_REQUESTS, came_of, end_with, refuse, say};
