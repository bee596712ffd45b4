//! Tests of requests, replies, queries and paths, against values from RFC 9112 and from the
//! server's own rules.
#![tactic(auto)]

#[cfg(test)]
mod answers;
#[cfg(test)]
mod asserts;
#[cfg(test)]
mod caching;
#[cfg(test)]
mod calls;
#[cfg(test)]
mod cases;
#[cfg(test)]
mod lengthy;
#[cfg(test)]
mod refusals;
#[cfg(test)]
mod serving;
#[cfg(test)]
mod tests;
#[cfg(test)]
mod turns;
