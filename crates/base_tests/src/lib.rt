//! The tests of the devices through which all goes, of rows of files, and of what needs plain values alone:
//! counters, numerals, regions, codes of movements, samples and grammars.
#![tactic(auto)]

#[cfg(test)]
mod counters;
#[cfg(test)]
mod csv_rows;
#[cfg(test)]
mod file_ports;
#[cfg(test)]
mod grammars;
#[cfg(test)]
mod histories;
#[cfg(test)]
mod lazy_walks;
#[cfg(test)]
mod numerals;
#[cfg(test)]
mod region_asks;
#[cfg(test)]
mod regions;
#[cfg(test)]
mod samples;
#[cfg(test)]
mod spirals;
#[cfg(test)]
mod streams;
#[cfg(test)]
mod words;
