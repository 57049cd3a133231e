// Theorems only: what the counters of a Modbus line hold after any calls. Read specs/History.
#![tactic(auto)]
