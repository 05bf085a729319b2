// Theory only: general laws of tests, lists, orders, counting and records of any size. No program code.
#![tactic(auto)]
