// Mining: the catalogue of a survey, written, and a list held against it.
#![tactic(auto)]

pub mod catalogue; // catalogue.rt: the catalogue of a survey
pub mod check; // check.rt: whether a list is the catalogue of a survey
mod settings; // settings.rt: what a catalogue is asked for, checked
