//! Tests of the program: its words, its help, its runs on a machine of the tests' own, and its engines over streams.
#![tactic(auto)]

#[cfg(test)]
mod checking;
#[cfg(test)]
mod disk;
#[cfg(test)]
mod endings;
#[cfg(test)]
mod engines;
#[cfg(test)]
mod errors;
#[cfg(test)]
mod help;
#[cfg(test)]
mod largest;
#[cfg(test)]
mod machine;
#[cfg(test)]
mod progress;
#[cfg(test)]
mod rows;
#[cfg(test)]
mod running;
#[cfg(test)]
mod sample;
#[cfg(test)]
mod streams;
#[cfg(test)]
mod telling;
#[cfg(test)]
mod told_words;
#[cfg(test)]
mod words;
