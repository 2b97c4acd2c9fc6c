//! What cases can't say of the program's jobs, of files and streams. Writers that fail; files of which a front is read,
//! records that take the place of a file once all of them is there, streams that nobody reads, and buffers of which not
//! all gets out; logs whose module asks for more room. `cases` has command lines and what they print.
#![tactic(auto)]

#[cfg(test)]
mod limits;
#[cfg(test)]
mod reading;
#[cfg(test)]
mod records;
#[cfg(test)]
mod room;
#[cfg(test)]
mod saving;
#[cfg(test)]
mod streams;
#[cfg(test)]
mod tasks;
#[cfg(test)]
mod writers;
