//! Threads that are blocked at a desk, over a recorder, and the laws of the desk.

mod blocked;
mod calls;
mod laws;
mod script;
mod together;
mod trial;
