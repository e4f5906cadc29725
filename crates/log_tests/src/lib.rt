//! Tests of the day's log: each line that there is, what any bytes become, and writers that are full or fail.
#![tactic(auto)]

#[cfg(test)]
mod connections;
#[cfg(test)]
mod days;
#[cfg(test)]
mod hostile;
#[cfg(test)]
mod logfmt;
#[cfg(test)]
mod machine;
#[cfg(test)]
mod memory;
#[cfg(test)]
mod moments;
#[cfg(test)]
mod outputs;
#[cfg(test)]
mod threads;
#[cfg(test)]
mod unwaiting;
#[cfg(test)]
mod writing;
