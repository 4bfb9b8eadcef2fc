//! Laws of tokens and of string values. These functions do nothing; their clauses hold.

ghost use Rattle.std.specs.Prelude.{◌≡◌, ◌≤◌, ℕ, List, length};
ghost use Rattle.proto_lexer.specs.Strings.{HasStringValue, body_value};
ghost use Rattle.proto_lexer.specs.Tokens.{IsNextToken, AreTokens};
ghost use Rattle.proto_lexer.specs.declared.token.Token.{Token};

/// Every offset within a text has exactly one next token.
pub fn next_token_is_determined()
    ensures some { (text : List ℕ) (place : ℕ) → place ≤ length text → (t : Token) × IsNextToken text place t }
    ensures one { (text : List ℕ) (place : ℕ) (t u : Token) → IsNextToken text place t → IsNextToken text place u → t ≡ u }
{}

/// A text has exactly one list of tokens. Its last token is the end of the text or the first offset where no token
/// starts.
pub fn token_list_is_determined()
    ensures some { (text : List ℕ) → (ts : List Token) × AreTokens text 0 ts }
    ensures one { (text : List ℕ) (place : ℕ) (ts us : List Token) → AreTokens text place ts → AreTokens text place us
        → ts ≡ us }
{}

/// The bytes between the quotes of a string have exactly one value, which `body_value` computes.
pub fn string_value_is_determined()
    ensures some { (body : List ℕ) → HasStringValue body (body_value body) }
    ensures one { (body value : List ℕ) → HasStringValue body value → value ≡ body_value body }
{}
