//! Tests of the libraries over their public calls: what no clause and no talk says. They stand in a crate of their own at the
//! top, so that no library is proved a second time for its tests.
#![tactic(auto)]

#[cfg(test)]
mod copies;
#[cfg(test)]
mod disks;
#[cfg(test)]
mod drivers;
#[cfg(test)]
mod endings;
#[cfg(test)]
mod frames;
#[cfg(test)]
mod readings;
#[cfg(test)]
mod seats;
#[cfg(test)]
mod texts;
