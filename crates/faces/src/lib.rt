// A list of faces in flat memory, all of it reserved when the list is made: no later call can fail for want of memory.
#![tactic(auto)]

pub mod held;
