// The house pruners Distinct and Sum.
#![tactic(auto)]

mod distinct;
mod sum;
#[cfg(test)]
mod tests;

pub use distinct::Distinct;
pub use sum::Sum;
