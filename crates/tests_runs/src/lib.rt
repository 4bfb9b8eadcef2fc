//! Tests of whole runs over their own fabrics, clocks and gates: what no clause of a run states, and no case
//! of the program can show. The crate has no other code, and nothing uses it.
#![tactic(auto)]

#[cfg(test)]
mod ends;
#[cfg(test)]
mod gates;
#[cfg(test)]
mod lines;
#[cfg(test)]
mod meetings;
#[cfg(test)]
mod noting;
#[cfg(test)]
mod prepared;
#[cfg(test)]
mod remains;
#[cfg(test)]
mod rounds;
#[cfg(test)]
mod runs;
#[cfg(test)]
mod slow;
#[cfg(test)]
mod streams;
#[cfg(test)]
mod threads;
#[cfg(test)]
mod timestamps;
#[cfg(test)]
mod turns;

// What dropping a value does is proved in each function that drops one. Through this function it is one call,
// so values are moved into it.
#[cfg(test)]
pub(crate) fn discard<T: Drop>(_value: T) {}
