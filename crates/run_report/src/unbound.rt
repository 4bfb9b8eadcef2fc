//! The line of a connection that wasn't bound.

ghost use Rattle.std.specs.Prelude.{◌≡◌, ◌≢◌, [], ◌∷◌, ◌++◌, OnOk, Option};
ghost use Rattle.std.specs.Fmt.{decimal};
ghost use Rattle.mrpc_table.specs.Lines.{after_spaces};
ghost use Rattle.mrpc_table.specs.Text.{line};
ghost use Rattle.link_handshake.specs.Handshake.{IsUnboundCause};
ghost use Rattle.run_report.specs.Lines.{byte_word, disagreement_words, flag_word, reason_words, unbound_words};

use crate::unfinished::append_fault;
use link_handshake::Unbound;
use mrpc_table::{Bytes, Memory};
use schema_binding::AgreeFault;

/// Appends `unbound CONN REASON`, where REASON is `transport`, `ended`, `cut PLACE REASON`, `hello LINE`,
/// `service OURS THEIRS`, `mismatch BYTE OURS THEIRS`, `methods AT` or `field MESSAGE NUMBER`. The only error is
/// `Memory`.
pub fn append_unbound(out: &mut Bytes, conn: u32, why: &Unbound) -> Result<(), Memory>
    requires { IsUnboundCause why.now }
    ensures { OnOk result (out.new ≡ out.old ++ line (unbound_words conn why.now)) }
{
    out.append_row(b"unbound", &[u64::from(conn)])?;
    append_reason(out, why)?;
    out.push(b'\n')
}

// Appends the reason why a connection isn't bound, each word after a space.
fn append_reason(out: &mut Bytes, why: &Unbound) -> Result<(), Memory>
    requires { IsUnboundCause why.now }
    ensures { OnOk result (out.new ≡ out.old ++ after_spaces (reason_words why.now)) }
{
    match why {
        Unbound::Transport => out.append_row(b" transport", &[]),
        Unbound::Ended => out.append_row(b" ended", &[]),
        Unbound::Cut(fault) => {
            out.append_spaced(b"cut")?;
            append_fault(out, *fault)
        }
        Unbound::Hello { line } => out.append_row(b" hello", &[*line]),
        Unbound::Disagrees(fault) => append_disagreement(out, fault),
    }
}

// Appends the reason why two tables disagree, each word after a space.
fn append_disagreement(out: &mut Bytes, fault: &AgreeFault) -> Result<(), Memory>
    requires { fault.now ≢ AgreeFault.Memory }
    ensures { OnOk result (out.new ≡ out.old ++ after_spaces (disagreement_words fault.now)) }
{
    match fault {
        AgreeFault::NoService { ours, theirs } => {
            out.append_row(b" service", &[digit(*ours), digit(*theirs)])
        }
        AgreeFault::Mismatch { byte, ours, theirs } => {
            out.append_row(b" mismatch", &[*byte])?;
            append_bytes(out, *ours, *theirs)
        }
        AgreeFault::Methods { at } => out.append_row(b" methods", &[u64::from(*at)]),
        AgreeFault::Field { message, number } => {
            out.append_spaced(b"field")?;
            append_field(out, message.as_slice(), *number)
        }
        AgreeFault::Memory => unreachable!(),
    }
}

// Appends the name of a message and the number of its field, each after a space.
fn append_field(out: &mut Bytes, message: &[u8], number: u32) -> Result<(), Memory>
    ensures { OnOk result (out.new ≡ out.old ++ after_spaces (message.now ∷ decimal number ∷ [])) }
{
    out.append_spaced(message)?;
    out.append_word(u64::from(number))
}

// 1 if the flag is set, else 0.
fn digit(flag: bool) -> u64
    ensures { decimal result ≡ flag_word flag }
{
    if flag { 1 } else { 0 }
}

// Appends a byte of each of two texts, each after a space.
fn append_bytes(out: &mut Bytes, ours: Option<u8>, theirs: Option<u8>) -> Result<(), Memory>
    ensures { OnOk result (out.new ≡ out.old ++ after_spaces (byte_word ours ∷ byte_word theirs ∷ [])) }
{
    append_byte(out, ours)?;
    append_byte(out, theirs)
}

fn append_byte(out: &mut Bytes, byte: Option<u8>) -> Result<(), Memory>
    ensures { OnOk result (out.new ≡ out.old ++ 32 ∷ byte_word byte) }
{
    match byte {
        None => out.append_spaced(b"-"),
        Some(byte) => out.append_word(u64::from(byte)),
    }
}
