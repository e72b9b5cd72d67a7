// Demand 3: specs/ states what leftovers cannot change, proofs/ proves it of every lowered sheet.
#![tactic(auto)]
