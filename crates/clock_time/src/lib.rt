// The release clock in time that does not wrap, laws only: `specs/Time` has the premise, the clock of unbroken time and the history of
// calls. The laws to look for are `in_step` (`proofs/InStep`), `none-made-due` (`proofs/Back`), `handed-within` (`proofs/Standing`), and
// `call-lowers` and `handed-from` (`proofs/Lowered`), which need no premise. There is no code.
#![tactic(auto)]
