//! Tests of requests and replies. What a connection gives is told as a text, the same for every way in which
//! its bytes are cut into reads.
#![tactic(auto)]

#[cfg(test)]
mod replies;
#[cfg(test)]
mod requests;
#[cfg(test)]
mod told;
