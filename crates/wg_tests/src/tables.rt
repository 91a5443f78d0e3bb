//! Worked values of codes, graphs, records and pages, an error in words, files of the system, and memory that is kept.

mod candidates;
mod codes;
mod files;
mod graphs;
mod pages;
mod rankings;
mod records;
mod rounds;
