// Definitions alone: what a line of a script does to the device, its cells and its one-time words, and what it is answered with.
#![tactic(auto)]
