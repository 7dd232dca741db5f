//! What the claims of a controller and those of a question have in common: values at a scale and how two of them compare
//! (`specs/Values`), and laws of scales, of sums that are weighed piece by piece, of lists of claims and of the run of some
//! columns. Nothing here runs.
#![tactic(auto)]
