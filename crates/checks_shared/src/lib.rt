// What every check over a frame has in common, and a frame as the line carries it: definitions and laws only. The checks themselves
// are crates of their own: checks_xor, checks_lrc, checks_crc. Read specs/.
#![tactic(auto)]
