// Examples of the lists, images, turn texts, faults and listings of the crate `player`, each with an answer worked out by
// hand.
#![tactic(auto)]

#[cfg(test)]
mod faults;
#[cfg(test)]
mod images;
#[cfg(test)]
mod lines;
#[cfg(test)]
mod lists;
#[cfg(test)]
mod loading;
#[cfg(test)]
mod plays;
#[cfg(test)]
mod text_faults;
#[cfg(test)]
mod texts;
#[cfg(test)]
mod words;
