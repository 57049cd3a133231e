// The face of the engine for C and Rust: every entry under a C name, over numbers and slices, and nothing else. An answer is one number, laid
// out by `jeulgopae_codes`: what is below zero is no length and no value. What each entry does is what the engine's promise says.
#![tactic(auto)]

mod files;
mod head;
mod host;
mod meetings;
mod numbers;
mod pairs;
mod stations;
