//! Whole runs of the program over a store and a sink in memory, each of whose calls fails in turn. Tests alone.
#![tactic(auto)]

#[cfg(test)]
mod failing;
#[cfg(test)]
mod runs;
#[cfg(test)]
mod solving;
#[cfg(test)]
mod texts;
