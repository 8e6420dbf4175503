// How much the rounding costs, laws only: `specs/Exact` says what an exact sum of fractions is, `specs/RoundingCost` the two sums that
// auditors ask for, `proofs/RoundingCost` what a call's answer has to do with them, under policy 1. There is no code.
#![tactic(auto)]
