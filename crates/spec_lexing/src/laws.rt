//! Laws of longest match, of matches and of tokens. Each is the contract of a function with an
//! empty body.
ghost use Rattle.spec_lexing.specs.Laws.{HasOneLongestMatch, HasMatchedPlaces, HasOneMatchList};
ghost use Rattle.spec_lexing.specs.Laws.{HasOneTokenList, HasSomeTokenList, HasCoveringMatches};
ghost use Rattle.spec_lexing.specs.Laws.{HasFewTokens, PredefinedStand};

/// A kind of token as the laws see it: what it matches, and the number that its tokens bear.
/// A kind with the number None gives no token, as white space.
pub trait TokenKind {
    ghost use Rattle.std.specs.Prelude.{ℕ, List, Option};

    ghost matches: { Self → List ℕ → Type 0 };

    ghost number: { Self → Option ℕ };
}

/// At a place at most one kind and one end are the longest match, and where one is, the place is
/// not unmatched.
pub fn one_longest_match<K: TokenKind>()
    ensures one { HasOneLongestMatch K.matches }
    ensures matched { HasMatchedPlaces K.matches }
{}

/// A text has at most one list of matches, and so at most one token list.
pub fn one_token_list<K: TokenKind>()
    ensures matches { HasOneMatchList K.matches }
    ensures tokens { HasOneTokenList K.matches K.number }
{}

/// Each list of bytes has a token list under each lexicon.
pub fn some_token_list()
    ensures { HasSomeTokenList }
{}

/// The matches of a text lie end to end and cover it, and none is empty. So there are no more tokens
/// than bytes.
pub fn matches_cover<K: TokenKind>()
    ensures cover { HasCoveringMatches K.matches }
    ensures most { HasFewTokens K.matches K.number }
{}

/// The expressions of the predefined kinds in code stand for what these kinds match.
pub fn predefined_kinds_stand()
    ensures { PredefinedStand }
{}
