//! The numeric instructions on edge values, and the laws of the thread machine, of schedules and of walks, each called once.
//! Small graphs are judged as is known of them, and numbers are drawn as PCG's reference code draws them. And what is
//! printed of a fault of reading and of a thread's end, and which locals of a ticket lock are live. What the validator,
//! the reader and the types answer is in their clauses; `cases` has modules and searches.
#![tactic(auto)]

#[cfg(test)]
mod draws;
#[cfg(test)]
mod expected;
#[cfg(test)]
mod graphs;
#[cfg(test)]
mod laws;
#[cfg(test)]
mod live;
#[cfg(test)]
mod numeric;
#[cfg(test)]
mod printed;
#[cfg(test)]
mod put_together;
#[cfg(test)]
mod schedule_laws;
#[cfg(test)]
mod walk_laws;
