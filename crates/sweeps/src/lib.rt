// Sweeps of a small plan, as tests: two probe readings in a branch, beside another branch.
#![tactic(auto)]

#[cfg(test)]
mod both_ways;
#[cfg(test)]
mod examples;
#[cfg(test)]
mod swept;
