#![tactic(auto)]

// Document 01's facts over one table: specs/Table.antt has the rows and the theorem, by computation.
