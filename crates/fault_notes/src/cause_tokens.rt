//! The token that is the cause of a refusal, and its offset.

ghost use Rattle.std.specs.Prelude.{◌≡◌, ◌<◌, length, IfSome};
ghost use Rattle.fault_notes.specs.FaultTokens.{offset_of_cause};
ghost use Rattle.fault_notes.specs.CauseTokens.{next_scope, is_cause_at};
ghost use Rattle.fault_notes.specs.ProgramNotes as notes;

use lang_check::CheckFault;
use node_lang::{Token, token_from};

// The scope of a program text that a token is in, by the tokens before it.
#[derive(Clone, Copy)]
struct Scope {
    // The last of `start`, `round` and `finish` is `start`.
    in_start: bool,
    // The last of them is `round`.
    in_round: bool,
    // The last of `send` and `=` is `=`.
    in_assignment: bool,
}

// Returns the scope after one more token.
fn next_scope(scope: Scope, token: Token) -> Scope
    ensures { result ≡ next_scope scope token }
{
    let mut next = scope;
    match token {
        Token::Start | Token::Round | Token::Finish => {
            next.in_start = token == Token::Start;
            next.in_round = token == Token::Round;
        }
        Token::Send => next.in_assignment = false,
        Token::Equals => next.in_assignment = true,
        _ => {}
    }
    next
}

// Returns whether a token in this scope is the cause of a refusal.
fn is_cause(fault: CheckFault, scope: Scope, token: Token) -> bool
    ensures { result ≡ is_cause_at fault scope token }
{
    match (fault, token) {
        (CheckFault::RegisterOutOfRange(wanted), Token::Register(register)) => register == wanted,
        (CheckFault::IdOutsideStart, Token::Id) => !scope.in_start,
        (CheckFault::MessageOutsideStep, Token::FromLeft | Token::FromRight) => {
            !(scope.in_round && scope.in_assignment)
        }
        _ => false,
    }
}

/// Returns the offset of the first token of a program text that is the cause of a refusal, or `None` if
/// there is none.
pub fn offset_of_cause(text: &[u8], fault: CheckFault) -> Option<usize>
    ensures exact { result ≡ offset_of_cause text.now fault }
    ensures within { IfSome result (λ offset. offset < length text.now) }
{
    let mut scope = Scope {
        in_start: false,
        in_round: false,
        in_assignment: false,
    };
    let mut at = 0;
    'tokens: while let Some(spanned) = token_from(text, at) {
        if is_cause(fault, scope, spanned.token) {
            return Some(spanned.start);
        }
        scope = next_scope(scope, spanned.token);
        at = spanned.end;
    }
    None
}

// Returns whether a program text has `not`.
pub(crate) fn has_not(text: &[u8]) -> bool
    ensures { result ≡ notes.has_not text.now }
{
    let mut at = 0;
    'tokens: while let Some(spanned) = token_from(text, at) {
        if matches!(spanned.token, Token::One(_)) {
            return true;
        }
        at = spanned.end;
    }
    false
}
