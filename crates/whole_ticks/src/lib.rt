// A fluid kernel in whole ticks, laws only: `whole-exists` of `proofs/Exists` says that there is one where tasks release their jobs in step from one tick on
// and m processors can share their loads. It rests on `filled` of `proofs/Filled`: where rows can be given parts of columns, they can have whole ones, one
// after the other, each along a chain of rows that hand a column on; `specs/Round` makes rows of jobs and columns of ticks. There is no code.
#![tactic(auto)]
