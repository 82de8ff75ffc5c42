// A fate for every image (document 02, Note 1), over any candidates and any tests that images may fail. Definitions and laws only.
#![tactic(auto)]
