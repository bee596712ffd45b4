//! Files that the libraries up to the codec are tried on, with answers from outside.
#![tactic(auto)]

#[cfg(test)]
mod asserts;
#[cfg(test)]
mod calls;
#[cfg(test)]
mod geometry;
#[cfg(test)]
mod header_cases;
#[cfg(test)]
mod headers;
#[cfg(test)]
mod layers;
#[cfg(test)]
mod meanings;
#[cfg(test)]
mod memory;
#[cfg(test)]
mod mixed;
#[cfg(test)]
mod pages;
#[cfg(test)]
mod parts;
#[cfg(test)]
mod pieces;
#[cfg(test)]
mod sizes;
#[cfg(test)]
mod small;
#[cfg(test)]
mod styles;
#[cfg(test)]
mod texts;
#[cfg(test)]
mod values;
#[cfg(test)]
mod writers;
#[cfg(test)]
mod written;
#[cfg(test)]
mod written_with;
