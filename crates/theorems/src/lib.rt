// What a user can rely on: proofs/Theorems.antt. There is no code here.
#![tactic(auto)]
