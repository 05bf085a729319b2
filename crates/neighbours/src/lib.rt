// Neighbours: the devices that a cable joins to each device of a drawing, in the order in which a catalogue's walks meet them. Its
// functions ask of their callers what `requires` says; the entries of the public crates ask nothing.
#![tactic(auto)]

pub mod slots; // slots.rt: the slots of a drawing, and where the group of each label ends
