// Laws on arrays with a count, and on what is counted over places: definitions in specs/, laws in proofs/. No code.

#![tactic(auto)]
