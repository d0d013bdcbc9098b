// Stories of the membership layer, played as tests: changes from the first ask to the next view, frame by frame through bytes.
// They stand in a crate of their own, so that `membership` is proved once.
#![tactic(auto)]

#[cfg(test)]
mod bench;
#[cfg(test)]
mod stories;
