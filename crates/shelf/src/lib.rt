// The plain shelf of document 01, the ledger of what a list of calls did, and demand 3: definitions and theorems alone.

#![tactic(auto)]
