#![tactic(auto, using(crate::proofs::Used::used), unfolding(rules::specs::Places::pick, rules::specs::Sheet::most_lines))]
// Receivers in their order (10), shots in time and once (11, 12).
pub mod receivers;
pub mod shots;
