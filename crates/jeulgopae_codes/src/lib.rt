// What the face for C says in numbers: an answer as one number (specs/Codes), and what a number asks (specs/Asks).
#![tactic(auto)]

pub mod asks;
pub mod codes;
