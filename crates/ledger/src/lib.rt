// The ledger of document 01 (specs/Ledger.antt), which judges the calls. It has no code.
#![tactic(auto)]
