//! Exclusive use of an open file.

ghost use Rattle.std.specs.Prelude.{OnOk};

use std::fs::File;
use std::io;

/// An open file that can be locked. `is_locked` is what is known of a locked one; of the system's files, that is
/// nothing.
pub trait Lock {
    ghost is_locked: { Self → Type 0 };

    /// Locks the file until it is dropped, and then empties it. It never blocks: if another handle holds the lock, it
    /// returns an error and leaves the file as it was.
    fn lock_and_empty(&self) -> io::Result<()>
        ensures { OnOk result (is_locked self.now) };
}

impl Lock for File {
    ghost is_locked = { λ _. Unit {0} };

    fn lock_and_empty(&self) -> io::Result<()> {
        self.try_lock()?;
        // A pipe or a device has length 0, and its length can't be set.
        if self.metadata()?.len() > 0 {
            self.set_len(0)?;
        }
        Ok(())
    }
}
