// The starred bench cases of document 01, proved over the definitions: `specs/Bench` has the table and the claim, `proofs/Bench` the
// proof; `Steps` has the steps of cases J and K, `Charged` B, D and J under edition 2. There is no code.
#![tactic(auto)]
