// The cases that document 01, "Both sides of each line", marks [P]: one table of questions and answers (specs/Marked.antt) under a single theorem
// (proofs/Marked.antt). There is no code here.

#![tactic(auto)]
