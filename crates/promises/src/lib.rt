// What the three demands say of every run: statements in specs/, proofs in proofs/. No code.

#![tactic(auto)]
