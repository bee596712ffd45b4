//! Files and folders, on a disk in memory that notes each call and on the system's own.
#![tactic(auto)]

#[cfg(test)]
mod asserts;
#[cfg(test)]
mod beside;
#[cfg(test)]
mod calls;
#[cfg(test)]
mod disk;
#[cfg(test)]
mod handle;
#[cfg(test)]
mod listing;
#[cfg(test)]
mod locking;
#[cfg(test)]
mod output;
#[cfg(test)]
mod reading;
#[cfg(test)]
mod replacing;
#[cfg(test)]
mod scratch;
#[cfg(test)]
mod writing;
