// Stories of the delivery layer, played as tests: reports from send to take, and views from a change to their closing, frame by frame through bytes.
// They stand in a crate of their own, so that `delivery` is proved once.
#![tactic(auto)]

#[cfg(test)]
mod bench;
#[cfg(test)]
mod closings;
#[cfg(test)]
mod reasons;
#[cfg(test)]
mod rounds;
