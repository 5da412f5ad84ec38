// Commands and operations by number, each way: as the words that a C program holds tell them. The numbers are C's (include/k5l2931cam.h).
#![tactic(auto)]

pub mod commands;
pub mod operations;
