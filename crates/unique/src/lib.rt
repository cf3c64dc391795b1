// The contract of a public function leaves one result for each call (Contracts 2): what that says is in specs/, a line
// for each function in proofs/. No code.

#![tactic(auto)]
