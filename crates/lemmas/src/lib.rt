// Lemmas about the parts of the meaning that the theorems and the code's proofs both need stand in specs/. There is no code here.
