//! Tests of the stages of a call: the codec, its graph in a heap, a chain, a connection, and the receive
//! path. The crate has no other code, and nothing uses it.
#![tactic(auto)]

#[cfg(test)]
mod blocks;
#[cfg(test)]
mod chains;
#[cfg(test)]
mod codec;
#[cfg(test)]
mod connection;
#[cfg(test)]
mod connections;
#[cfg(test)]
mod given;
#[cfg(test)]
mod judged;
#[cfg(test)]
mod kinds;
#[cfg(test)]
mod messages;
#[cfg(test)]
mod observed;
#[cfg(test)]
mod out_of_memory;
#[cfg(test)]
mod receiver;
#[cfg(test)]
mod receiving;

// What dropping a value does is proved in each function that drops one. Through this function it is one call,
// so values are moved into it.
#[cfg(test)]
pub(crate) fn discard<T: Drop>(_value: T) {}
