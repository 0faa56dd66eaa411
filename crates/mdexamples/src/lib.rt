//! Examples: calls of the engine as a program makes them, two machines, and a linter over whole documents. The pages of `docs` show them.
#![tactic(auto)]

// spans: a program's worth of calls: `docs/USING.md`
pub mod spans;

// texts: the text of each code span and autolink
pub mod texts;

// headings: the machine of `docs/MACHINE-1.md`
pub mod headings;

// labels: the machine of `docs/MACHINE-2.md`
pub mod labels;

// text lines: a machine whose resolver reads its chunks by `Text`
pub mod text_lines;

// fields: machines with bytes of their own
pub mod fields;

// kept: a kept tokenizer reads on in a changed document
pub mod kept;

// linter: headings, and whether their ranks rise one by one
pub mod laws;
pub mod linter;
