//! Views of `mrpc-view`.

mod frames;
