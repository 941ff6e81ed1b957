//! The opening of an image, run over small images in memory: the rows that it is tested by.
#![tactic(auto)]

#[cfg(test)]
mod disks;
#[cfg(test)]
mod images;
#[cfg(test)]
mod openings;
#[cfg(test)]
mod refusals;
#[cfg(test)]
mod reloads;
#[cfg(test)]
mod states;
