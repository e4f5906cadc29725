//! Tests of readers that are counted, of the loop of an engine, and of connections of firms to a book.
#![tactic(auto)]

#[cfg(test)]
mod at_desk;
#[cfg(test)]
mod books;
#[cfg(test)]
mod clocks;
#[cfg(test)]
mod closings;
#[cfg(test)]
mod conversations;
#[cfg(test)]
mod cuts;
#[cfg(test)]
mod desks;
#[cfg(test)]
mod exchanges;
#[cfg(test)]
mod faults;
#[cfg(test)]
mod full;
#[cfg(test)]
mod memory;
#[cfg(test)]
mod rows;
#[cfg(test)]
mod shares;
#[cfg(test)]
mod silence;
#[cfg(test)]
mod turns;
#[cfg(test)]
mod visits;
#[cfg(test)]
mod writes;
