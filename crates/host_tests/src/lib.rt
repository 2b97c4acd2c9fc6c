//! Runs of modules by the calls that a host makes. Behind gates that hold threads back, threads do run at the same time,
//! and what a run leaves doesn't depend on who comes first, over both memories. Each turn has its call of the gate. The
//! scheduled machine is stepped along the schedules of real runs. A module of one atomic add by its own call. The calls
//! of a host in C, with ample memory and with what they refuse: a module is checked, run along a schedule that is drawn,
//! replayed along the run's record, and gone through in every order. And the laws of records and runs. `cases` has the
//! runs that no gate holds.
#![tactic(auto)]

#[cfg(test)]
mod at_once;
#[cfg(test)]
mod calls;
#[cfg(test)]
mod first;
#[cfg(test)]
mod holding;
#[cfg(test)]
mod laws;
#[cfg(test)]
mod machine;
#[cfg(test)]
mod noting;
#[cfg(test)]
mod runs;
#[cfg(test)]
mod schedules;
#[cfg(test)]
mod turns;
