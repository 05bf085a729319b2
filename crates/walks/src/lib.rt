// Theory alone: walks over the numberings of a code in a drawing, what they mark, count and choose, and the labels they go by.
#![tactic(auto)]
