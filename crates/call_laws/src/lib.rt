//! What a call may do to others and is refused with, by its kind and number: which processes, files and descriptors it
//! leaves, which errors a sweep tries, that pipes are queues, and what files and processes are as told.
#![tactic(auto)]

pub mod laws;
