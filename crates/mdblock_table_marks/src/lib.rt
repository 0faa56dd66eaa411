//! Tables in the skeleton of a document: the events of their rows, and the texts of their cells as chains.
#![tactic(auto)]

// rows: as pieces, at their places
pub mod pieces;

// tables: where lines are cut at them; their marks, which move with their lines; how they are written, row by row
pub mod tables;

// cells: their texts as chains of their own
pub mod cells;

// laws: of tables, cuts and cells; examples
pub mod laws;
