// The grammar of formulas, and that the parser reads exactly what it derives: definitions in specs/, theorems in proofs/. No function. Assumes nothing.
#![tactic(auto)]
