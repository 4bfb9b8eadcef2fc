//! The line of a fault, as a command prints it.

use mrpc_table::{Decimal, number_of, split_once};

// The start of the line of a fault.
pub(crate) const FAULT: &[u8] = b"fault ";

// The fields of the line of a fault.
#[derive(Clone, Copy)]
pub(crate) struct FaultLine<'a> {
    // The file of a set, from 1, if a line of it is named.
    pub file: Option<u64>,
    // A line, from 1, a byte, from 0, or, in a set, a file, from 1.
    pub place: u64,
    // The word of the reason.
    pub reason: &'a [u8],
}

impl<'a> FaultLine<'a> {
    // The fields of a line `fault PLACE REASON` or `fault FILE:LINE REASON`; `None` if it has another form.
    pub(crate) fn of(line: &'a [u8]) -> Option<FaultLine<'a>> {
        let line = match line.strip_suffix(b"\n") {
            Some(line) => line,
            None => line,
        };
        let (spot, reason) = split_once(line.strip_prefix(FAULT)?, b' ')?;
        match split_once(spot, b':') {
            Some((file, place)) => Some(FaultLine {
                file: Some(small(file)?),
                place: small(place)?,
                reason,
            }),
            None => Some(FaultLine {
                file: None,
                place: small(spot)?,
                reason,
            }),
        }
    }
}

fn small(word: &[u8]) -> Option<u64> {
    match number_of(word)? {
        Decimal::Small(number) => Some(number),
        Decimal::Large => None,
    }
}
