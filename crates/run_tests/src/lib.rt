//! Tests of the commands over stores and sinks that fail.
#![tactic(auto)]

#[cfg(test)]
mod tests;
