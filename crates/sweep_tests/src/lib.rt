//! Tests of views, checks, sweeps, scripts, sheets and other texts, over public calls.
#![tactic(auto)]

#[cfg(test)]
mod checks;
#[cfg(test)]
mod fixture;
#[cfg(test)]
mod largest;
#[cfg(test)]
mod memory;
#[cfg(test)]
mod rows;
#[cfg(test)]
mod script_lines;
#[cfg(test)]
mod search;
#[cfg(test)]
mod sheets;
#[cfg(test)]
mod sweep;
#[cfg(test)]
mod texts;
#[cfg(test)]
mod view;
#[cfg(test)]
mod written;
