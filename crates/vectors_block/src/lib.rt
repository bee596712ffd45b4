//! The MQ coder, code-blocks, these on worker threads, and the transforms of lines, sub-bands and colours, with answers
//! from outside.
#![tactic(auto)]

#[cfg(test)]
mod calls;
#[cfg(test)]
mod cases;
#[cfg(test)]
mod farm;
#[cfg(test)]
mod lift;
#[cfg(test)]
mod model;
#[cfg(test)]
mod modelled;
#[cfg(test)]
mod mq;
#[cfg(test)]
mod tests;
#[cfg(test)]
mod written;
#[cfg(test)]
mod written_cases;
