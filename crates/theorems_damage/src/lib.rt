// What damage on the line is, and what the checks show of it: theorems only. Read specs/Damage.antt.
#![tactic(auto)]
