//! Rows of packets: stuffed bits, tag trees, headers, packets that are written, and their order, against values from
//! outside.
#![tactic(auto)]

#[cfg(test)]
mod bits;
#[cfg(test)]
mod entries;
#[cfg(test)]
mod headers;
#[cfg(test)]
mod order;
#[cfg(test)]
mod precincts;
#[cfg(test)]
mod sizes;
#[cfg(test)]
mod trees;
#[cfg(test)]
mod walk_cases;
#[cfg(test)]
mod walks;
#[cfg(test)]
mod writing;
#[cfg(test)]
mod writing_cases;
