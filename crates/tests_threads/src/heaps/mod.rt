//! What threads share: heaps, rings, quotas, and copies of what is stored concurrently.

mod copies;
mod notes;
mod quotas;
mod rings;
