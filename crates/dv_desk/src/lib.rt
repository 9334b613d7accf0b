//! The desk: it answers requests for what is kept, over connections.
#![tactic(auto)]

mod answers;
mod bodies;
mod connections;
mod desks;
mod opened;
mod posted;
mod queries;
mod routes;
mod serving;
mod words;

pub use answers::Answer;
pub use dv_serving::Served;
pub use opened::serve;
pub use posted::Posted;
pub use routes::Allowed;
pub use serving::serve_link;
pub use words::{ServeWords, serve_words};
