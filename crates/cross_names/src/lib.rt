// The rules 19, 20 and 27 over the names of a whole file: of the model list, of maps and pins, and of sections. Each
// module finds the first line of its kind that breaks one.
#![tactic(auto)]

pub mod list;
pub mod maps;
pub mod sections;
