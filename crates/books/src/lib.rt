// Theory only: the book of all small patterns. No program code.
#![tactic(auto)]
