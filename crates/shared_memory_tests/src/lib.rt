//! Runs of the memories through their trait: one seat beside the sequential memory, the recorder's log replayed on it,
//! and threads that change the same word of a row, by exchanges and by single steps; and threads that are blocked at a
//! desk, over a recorder. The laws of histories and of the desk are called here too. `cases` has each operator on edge
//! values, and runs that wait and notify.
#![tactic(auto)]

#[cfg(test)]
mod adding;
#[cfg(test)]
mod beside;
#[cfg(test)]
mod desk;
#[cfg(test)]
mod laws;
#[cfg(test)]
mod recorder;
#[cfg(test)]
mod replaying;
#[cfg(test)]
mod row;
#[cfg(test)]
mod row_alone;
#[cfg(test)]
mod sequential;
#[cfg(test)]
mod sharing;
#[cfg(test)]
mod singles;
#[cfg(test)]
mod steps;
#[cfg(test)]
mod trial;
#[cfg(test)]
mod two_callers;
