//! The command line, run in memory, and windows of stored files, with answers from outside.
#![tactic(auto)]

#[cfg(test)]
mod adding;
#[cfg(test)]
mod causes;
#[cfg(test)]
mod inputs;
#[cfg(test)]
mod keeping;
#[cfg(test)]
mod kept;
#[cfg(test)]
mod lines;
#[cfg(test)]
mod memory;
#[cfg(test)]
mod numbers;
#[cfg(test)]
mod outputs;
#[cfg(test)]
mod progress;
#[cfg(test)]
mod runs;
#[cfg(test)]
mod stored;
#[cfg(test)]
mod telling;
#[cfg(test)]
mod windows;
