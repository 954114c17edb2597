#![tactic(auto)]
// "Small sets to try": set A and its changes as definitions (specs/), and the table of what is answered of them, proved (proofs/). There is no
// code here.
