//! Tests of workers over a feed.
#![tactic(auto)]

mod feeds;
