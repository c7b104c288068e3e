//! A program for people who translate, as a library: what it prints and its status, from what is asked for and the contents
//! of the files that it is about.
#![tactic(auto)]

pub mod answer;
mod check;
pub mod laws;
mod list;
mod reading;
pub mod run;
mod show;
