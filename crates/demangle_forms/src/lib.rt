//! Rows of the grammar in the parts that functions read, and what holds of lists and turns. Nothing here runs.
#![tactic(auto)]
