//! Tests of what no clause and no row of a table can show: printed texts, kinds as keys, the system's streams, and the
//! examples of pages, in `clients`. The comment above each names the mistake that it would find.
//! A test takes the runtime itself: a function that is generic over its handle, as `rt: &impl Abort`, takes a third
//! longer to prove.
#![tactic(auto)]

#[cfg(test)]
mod archives;
#[cfg(test)]
mod clients;
#[cfg(test)]
mod debug;
#[cfg(test)]
mod devices;
#[cfg(test)]
mod errors;
#[cfg(test)]
mod limits;
#[cfg(test)]
mod ports;
#[cfg(test)]
mod programs;
#[cfg(test)]
mod samples;
#[cfg(test)]
mod tables;
#[cfg(test)]
mod text;
#[cfg(test)]
mod texts;
#[cfg(test)]
mod whole;
