// The layout language is a specification (specs/); its code is the questions, by name, and what says one by its number.
#![tactic(auto)]

pub use numbered::Numbered;
pub use question::Question;

mod numbered;
mod question;
