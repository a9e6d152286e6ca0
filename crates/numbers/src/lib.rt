// Message numbers: ranges and sets of them, how many items lent lists have places for, and decimals. All of it is definitions (specs/) and what is proved of them.
#![tactic(auto)]
