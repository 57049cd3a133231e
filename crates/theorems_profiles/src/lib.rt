// Theorems only: what a profile keeps over any calls, and that without one nothing changes.
#![tactic(auto)]
