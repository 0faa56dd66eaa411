//! Rows and cells of tables, and checks of tasks, by plain code over the bytes of a line. Each loop takes a turn at its top.
#![tactic(auto)]

// cells: of a line, as a row or a delimiter row
pub mod tables;

// pieces: sizes of parts; rows and checks as pieces
pub mod pieces;
pub mod rows;
pub mod tasks;

// laws: of rows, checks and pieces; examples
pub mod laws;
