// Theory only: the starred drawings of the paper, one table by one statement over the definitions. No program code.
#![tactic(auto)]
