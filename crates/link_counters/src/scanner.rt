//! The ends of frames in a stream.

// The bytes of a frame's header, before the payload.
const HEADER: u64 = 16;

// How many of them are the length of the payload, most significant byte first.
const LENGTH: u64 = 4;

/// The position of a stream within its current frame.
#[derive(Clone, Copy)]
pub struct FrameScanner {
    // How many bytes of the header arrived, and the value of the length bytes so far.
    header: u64,
    payload: u64,
}

impl FrameScanner {
    /// The start of a stream.
    pub fn new() -> FrameScanner {
        FrameScanner {
            header: 0,
            payload: 0,
        }
    }

    /// Reads the next bytes, and returns how many frames end within them.
    pub fn scan(&mut self, bytes: &[u8]) -> u64 {
        let mut frames: u64 = 0;
        for byte in bytes {
            if self.scan_byte(*byte) {
                frames = frames.saturating_add(1);
            }
        }
        frames
    }

    // Reads a byte, and returns whether a frame ends with it.
    fn scan_byte(&mut self, byte: u8) -> bool {
        if self.header < HEADER {
            if self.header < LENGTH {
                self.payload = (self.payload % 0x100_0000) * 0x100 + u64::from(byte);
            }
            self.header += 1;
        } else if self.payload > 0 {
            self.payload -= 1;
        }
        if self.header < HEADER || self.payload > 0 {
            return false;
        }
        self.header = 0;
        true
    }
}
