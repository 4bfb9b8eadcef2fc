//! The end of a field or of an enum's value, after its number: options in brackets, and `;`.

ghost use Rattle.std.specs.Prelude.{◌≡◌, ◌<◌, ◌^◌, ℕ, List};
ghost use Rattle.proto_grammar.specs.Lexemes.{lexeme};
ghost use Rattle.proto_grammar.specs.Advancing.{IsTokenOfText, IsResultOf, after_option as reading_behind_option};
ghost use Rattle.proto_grammar.specs.Advancing.{advance_tail as tail_reading, tail_depth};

use crate::fault::ProtoFault;
use crate::lexeme::{is_punctuator, unexpected};
use crate::option::{OptionState, OptionStep, advance_option};
use proto_lexer::Token;

/// How much of it is read.
#[derive(Clone, Copy)]
pub enum TailState {
    /// The number is read.
    Start,
    /// An option in the brackets is being read; the earlier ones give this value to `packed`.
    Options(Option<bool>, OptionState),
    /// The closing bracket is read.
    Closed(Option<bool>),
}

/// The result of reading one of its tokens.
#[derive(Clone, Copy)]
pub enum TailStep {
    More(TailState),
    /// The token is the `;`, and the options give this value to `packed`.
    Done(Option<bool>),
}

// The name of an option comes next.
const NEXT: OptionState = OptionState::Name { first: true };

// Reads a token after an option in brackets.
fn after_option(packed: Option<bool>, token: &Token) -> Result<TailStep, ProtoFault>
    ensures { (text : List ℕ) → IsResultOf result (reading_behind_option packed (lexeme text token.now)) }
{
    if is_punctuator(token, b',') {
        Ok(TailStep::More(TailState::Options(packed, NEXT)))
    } else if is_punctuator(token, b']') {
        Ok(TailStep::More(TailState::Closed(packed)))
    } else {
        Err(unexpected(token))
    }
}

// Reads a token after the number.
#[tactic(auto, unfolding(crate::specs::Advancing::advance_tail))]
pub(crate) fn advance_tail(
    text: &[u8],
    state: TailState,
    token: &Token,
) -> Result<TailStep, ProtoFault>
    requires lies { IsTokenOfText text.now token.now }
    requires depth { tail_depth state < 2 ^ 63 }
    ensures { IsResultOf result (tail_reading state (lexeme text.now token.now)) }
{
    match state {
        TailState::Start if is_punctuator(token, b'[') => {
            Ok(TailStep::More(TailState::Options(None, NEXT)))
        }
        TailState::Start if is_punctuator(token, b';') => Ok(TailStep::Done(None)),
        TailState::Closed(packed) if is_punctuator(token, b';') => Ok(TailStep::Done(packed)),
        TailState::Options(packed, option) => match advance_option(text, option, token)? {
            OptionStep::More(option) => Ok(TailStep::More(TailState::Options(packed, option))),
            OptionStep::Whole(says) => after_option(says.or(packed), token),
        },
        _ => Err(unexpected(token)),
    }
}
