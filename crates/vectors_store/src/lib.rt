//! Archives on shelves, against answers from outside.
#![tactic(auto)]

#[cfg(test)]
mod adding;
#[cfg(test)]
mod asserts;
#[cfg(test)]
mod by_parts;
#[cfg(test)]
mod calls;
#[cfg(test)]
mod contents;
#[cfg(test)]
mod digested;
#[cfg(test)]
mod digests;
#[cfg(test)]
mod directories;
#[cfg(test)]
mod dressed;
#[cfg(test)]
mod failing;
#[cfg(test)]
mod first_faults;
#[cfg(test)]
mod judging;
#[cfg(test)]
mod limits;
#[cfg(test)]
mod listing;
#[cfg(test)]
mod loopback;
#[cfg(test)]
mod opened_with;
#[cfg(test)]
mod opening;
#[cfg(test)]
mod parts;
#[cfg(test)]
mod prepared;
#[cfg(test)]
mod reading;
#[cfg(test)]
mod refusals;
#[cfg(test)]
mod serving;
#[cfg(test)]
mod shelves;
