// Theory alone: the demands as theorems over bytes, above the libraries that meet them.
#![tactic(auto)]
