//! What is written of findings: lines for people, JSON, commands of GitHub's workflows, or a log of static analysis.
#![tactic(auto)]

mod github;
mod json;
mod options;
mod pages;
mod picture;
mod report;
mod rows;
mod sarif;
mod sorting;
mod unread;

pub use options::{Look, ReportOptions};
pub use report::{Outcome, Written, fault_lines, write_report};
pub use rows::Counts;
pub use unread::{UnreadFile, unread_lines};
