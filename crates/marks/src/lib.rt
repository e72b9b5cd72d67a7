// Which registers a listing draws on before they are filled: definitions and what is proved of them. The pass over bytes is `marks_pass`.
#![tactic(auto)]
