//! Link reference definitions and tables in the skeleton of a document: the paragraphs that begin with definitions, the events of these, and the lines
//! of tables.
#![tactic(auto)]

// fronts: the text of a paragraph; its definitions
pub mod fronts;
pub mod texts;

// held text: the text of lines of a paragraph
pub mod held;

// tables: which lines are rows of one
mod tables;

// rows: the lines, each with what was known; an underline behind definitions alone; a table
pub mod rows;

// sections: of a part, and what is in them
pub mod sections;

// marks: the events of definitions; turns of loops
pub mod marks;

// skeleton: part by part
pub mod parts;
pub mod skeleton;

// laws: of skeletons; documents with their events
pub mod laws;
