//! Tests of what threads share and of what runs in threads: heaps, rings and quotas, links in memory and over
//! TCP, pools of workers, and applications on a port. The crate has no other code, and nothing uses it.
#![tactic(auto)]

#[cfg(test)]
mod apps;
#[cfg(test)]
mod heaps;
#[cfg(test)]
mod links;
#[cfg(test)]
mod pool;
#[cfg(test)]
mod tcp;

// What dropping a value does is proved in each function that drops one. Through this function it is one call,
// so values are moved into it.
#[cfg(test)]
pub(crate) fn discard<T: Drop>(_value: T) {}
