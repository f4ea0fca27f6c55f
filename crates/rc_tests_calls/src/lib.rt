//! Tests of calls below `run` that say what no definition and no case file says: folders and sinks that fail, and in how many calls
//! a text goes out; lengths out of range; orders, copies and comparisons of types; the longest prefix in a tree; AS paths longer
//! than a stack; and what two callers of a table of nodes make.
//!
//! What lines, tables, walks and sets are stands in the rows beside their definitions, and what is seen of them in the case files of
//! rc_tests_cases. Expected values come from outside: the standards, and small networks that were worked out by hand.
#![tactic(auto)]

#[cfg(test)]
mod as_paths;
#[cfg(test)]
mod bounds;
#[cfg(test)]
mod chains;
#[cfg(test)]
mod copies;
#[cfg(test)]
mod memory;
#[cfg(test)]
mod names;
#[cfg(test)]
mod prefix_trees;
#[cfg(test)]
mod printed;
#[cfg(test)]
mod several_paths;
