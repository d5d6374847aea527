// Reads a case file: its numbers, its form, its pairs of offset and length, its sections and the record that they hold
// (cases' specs/Forms and specs/Layout). Refusals 1, 2 and 12 of a file are tested first (cases' specs/Refusals).
#![tactic(auto)]

pub mod forms;
mod numbers;
pub mod pairs;
pub mod sections;
