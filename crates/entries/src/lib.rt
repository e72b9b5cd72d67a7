// Demands 2 and 3, and what the marks promise, of what the two entries do: specs/ states it of what a call of `lower` leaves, played as `play` promises.
#![tactic(auto)]
