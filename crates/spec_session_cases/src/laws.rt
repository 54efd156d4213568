//! Small sessions and small answers. The contract of a function with an empty body has them.
ghost use Rattle.spec_session_cases.specs.Examples.{SmallSessions};
ghost use Rattle.spec_session_cases.specs.TokenCases.{SmallTokenTexts};

/// What the sessions of small inputs write, and their status, by hand.
pub fn small_sessions()
    ensures { SmallSessions }
{}

/// What is told of the tokens of small texts, by hand.
pub fn small_token_texts()
    ensures { SmallTokenTexts }
{}
