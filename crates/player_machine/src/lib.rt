// The player's machine, by its definitions: specs/ holds the words that a record writes, the play, the jump rules and the answer.
#![tactic(auto)]
