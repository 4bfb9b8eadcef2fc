//! Queues and links between threads.

mod queues;
mod talks;
mod writers;
