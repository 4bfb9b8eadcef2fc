//! Applications on a port. All but one get their input before they run, so that one thread is enough.

mod clients;
mod echoes;
mod order;
mod port;
mod programs;
mod servers;
