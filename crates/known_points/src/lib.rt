// Document 01's starred known points, as one theorem: case A of the whole call, and the counts and numbers of images. Definitions and laws only.
#![tactic(auto)]
