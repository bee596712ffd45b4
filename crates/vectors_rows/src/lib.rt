//! Images decoded and encoded row by row, by one worker and by several, and windows of files, with answers from
//! outside.
#![tactic(auto)]

#[cfg(test)]
mod by_workers;
#[cfg(test)]
mod chance;
#[cfg(test)]
mod drawings;
#[cfg(test)]
mod encoding;
#[cfg(test)]
mod encoding_by_workers;
#[cfg(test)]
mod files;
#[cfg(test)]
mod sources;
#[cfg(test)]
mod tests;
#[cfg(test)]
mod window;
#[cfg(test)]
mod workers;
