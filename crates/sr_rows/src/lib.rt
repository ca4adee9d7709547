//! What `sr` answers on worked inputs, over files in memory: no code, only tests of the top call.
#![tactic(auto)]

#[cfg(test)]
mod binary;
#[cfg(test)]
mod case;
#[cfg(test)]
mod demos;
#[cfg(test)]
mod formulas;
#[cfg(test)]
mod generator;
#[cfg(test)]
mod helps;
#[cfg(test)]
mod hints;
#[cfg(test)]
mod limits;
#[cfg(test)]
mod lines;
#[cfg(test)]
mod numbers;
#[cfg(test)]
mod outside;
#[cfg(test)]
mod plain;
#[cfg(test)]
mod random;
#[cfg(test)]
mod reasons;
#[cfg(test)]
mod reference;
#[cfg(test)]
mod strict;
#[cfg(test)]
mod trimmed;
#[cfg(test)]
mod trims;
#[cfg(test)]
mod trims_faults;
#[cfg(test)]
mod words;
#[cfg(test)]
mod written;
