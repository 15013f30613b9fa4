// The job file: what is read, what is written, and that they fit. The definitions are in specs/, their law in proofs/.
#![tactic(auto)]
