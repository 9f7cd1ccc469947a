//! Tests of what no case of a program can show: the edge to the world, over memory and over the
//! operating system.
#![tactic(auto)]

#[cfg(test)]
mod tests;
