//! The tests of the program as a whole, over files, a source and a sink in memory.
#![tactic(auto)]

#[cfg(test)]
mod calls;
#[cfg(test)]
mod damage;
#[cfg(test)]
mod devices;
#[cfg(test)]
mod doubling;
#[cfg(test)]
mod extending;
#[cfg(test)]
mod limits;
#[cfg(test)]
mod lines;
#[cfg(test)]
mod merging;
#[cfg(test)]
mod refusals;
#[cfg(test)]
mod replies;
#[cfg(test)]
mod samples;
#[cfg(test)]
mod script;
#[cfg(test)]
mod stage;
#[cfg(test)]
mod tails;
#[cfg(test)]
mod upgrading;
