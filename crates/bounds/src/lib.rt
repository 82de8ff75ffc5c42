// How large a float can get: the size of sums, products and quotients of bounded floats. Definitions and laws only.
#![tactic(auto)]
