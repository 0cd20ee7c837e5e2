// The logic: its definitions are in specs/, its theorems in proofs/. No function runs here.
#![tactic(auto)]
