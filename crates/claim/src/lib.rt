// Demand 3: what is claimed of a query's answer, over any function that judges one sequence's path. Definitions and laws only.
#![tactic(auto)]
