// Examples of the memories of the crate `memory`, each with an answer worked out by hand.
#![tactic(auto)]

#[cfg(test)]
mod bytes;
#[cfg(test)]
mod caches;
#[cfg(test)]
mod clients;
#[cfg(test)]
mod letting_go;
#[cfg(test)]
mod openings;
#[cfg(test)]
mod outside;
#[cfg(test)]
mod refusals;
#[cfg(test)]
mod traffic;
