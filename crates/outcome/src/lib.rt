#![tactic(auto)]
// What it is for a contract to leave one outcome. There is no code here.
