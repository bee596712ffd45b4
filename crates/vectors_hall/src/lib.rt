//! A catalogue that connections share, on threads, against what is known of it.
#![tactic(auto)]

#[cfg(test)]
mod attended;
#[cfg(test)]
mod calls;
#[cfg(test)]
mod counted;
#[cfg(test)]
mod crowd;
#[cfg(test)]
mod hosts;
#[cfg(test)]
mod idle;
#[cfg(test)]
mod keeping;
#[cfg(test)]
mod limits;
#[cfg(test)]
mod opening;
#[cfg(test)]
mod operating;
#[cfg(test)]
mod publishing;
#[cfg(test)]
mod readers;
#[cfg(test)]
mod refusals;
#[cfg(test)]
mod streams;
#[cfg(test)]
mod threads;
#[cfg(test)]
mod ways;
