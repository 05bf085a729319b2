// Theory only: drawings as labelled graphs, connectedness, maps, sameness, containment and support. No program code.
#![tactic(auto)]
