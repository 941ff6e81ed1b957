//! The core of a disk, run by its drivers over devices in memory: the rows that its calls are tested by.
#![tactic(auto)]

#[cfg(test)]
mod calls;
#[cfg(test)]
mod tests;
