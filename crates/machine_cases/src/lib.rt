//! Integration tests: the machines of small inputs, driven by hand, message by message, on one thread.
#![tactic(auto)]

#[cfg(test)]
mod tests;
