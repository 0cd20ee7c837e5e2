// Document 01's proved graphs, computed from the bytes of their sheets through the definitions of the public contracts: proofs/Graphs; what the program prints of sheets, and what Clean
// writes of them, computed likewise: proofs/Printed, proofs/Cleaned. There is no function here.
#![tactic(auto)]
