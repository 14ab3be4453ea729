// Tests of words and of the loader.
#![tactic(auto)]

#[cfg(test)]
mod amounts;
#[cfg(test)]
mod fields;
#[cfg(test)]
mod one_word;
#[cfg(test)]
mod order;
#[cfg(test)]
mod outcome;
#[cfg(test)]
mod sample;
#[cfg(test)]
mod turns;
