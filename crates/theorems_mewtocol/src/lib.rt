// What a MEWTOCOL host and a MEWTOCOL station make of each other: theorems only. Read specs/Pair.antt.
#![tactic(auto)]
