// Theory only: growing codes record by record, and the catalogue of a survey. No program code.
#![tactic(auto)]
