//! Tests of the commands by `still`, over small images in memory: each row is what is handed in, and what is printed.
#![tactic(auto)]

#[cfg(test)]
mod crash_tests;
#[cfg(test)]
mod flushing_tests;
#[cfg(test)]
mod making_tests;
#[cfg(test)]
mod running_tests;
#[cfg(test)]
mod showing_tests;
#[cfg(test)]
mod small;
