// Lists and reports of small plans, as tests.
#![tactic(auto)]

#[cfg(test)]
mod examples;
