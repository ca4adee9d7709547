//! What `sr_load` answers on worked and on random proofs: no code, only tests of loading a proof by lemmas and taking it back.
#![tactic(auto)]

#[cfg(test)]
mod asking;
#[cfg(test)]
mod building;
#[cfg(test)]
mod limits;
#[cfg(test)]
mod loading;
#[cfg(test)]
mod random;
#[cfg(test)]
mod reference;
#[cfg(test)]
mod sample;
#[cfg(test)]
mod unloading;
