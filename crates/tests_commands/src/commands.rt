//! Commands of `mrpc`.

mod offline;
mod runs;
