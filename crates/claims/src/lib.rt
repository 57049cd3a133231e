// The three demands on the engine, stated over the definitions of the crates below and proved: theorems only. Read specs/.
#![tactic(auto)]
