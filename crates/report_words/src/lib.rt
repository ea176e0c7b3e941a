// Words, numbers and lines of the report, written into a lent buffer.

#![tactic(auto)]

pub mod words; // words.rt: words and numbers
pub mod lines; // lines.rt: the lines of the report
pub mod contact_lines; // contact_lines.rt: the lines of contacts
pub mod file_lines; // file_lines.rt: the line of a refusal that is one of two files
