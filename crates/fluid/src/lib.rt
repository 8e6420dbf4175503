// A fluid kernel on m processors, laws only: `specs/Fluid` says what it gives each job by its deadline, and `fluid-meets` of `proofs/Deadlines` that no job
// needs more. `specs/Wrapped` shares every tick out in parts, and `parts-met` of `proofs/Exists` says that so there is such a kernel. There is no code.
#![tactic(auto)]
