//! Laws of expressions over bytes. Each is the contract of a function with an empty body.
ghost use Rattle.spec_automata.specs.Laws.{BytesMatchTheSame, KindsMatchTheSame};
ghost use Rattle.spec_automata.specs.Laws.{InsideIsClosed, InsideIsOpen};

/// At the front of UTF-8 text the bytes of an expression, and of a kind, match just what it matches.
pub fn bytes_match_the_same()
    ensures expressions { BytesMatchTheSame }
    ensures kinds { KindsMatchTheSame }
{}

/// Behind the opening text of a comment, less than all of the closing text has been read exactly
/// where the comment is open, and all of it exactly where it is closed.
pub fn comments_are_open_or_closed()
    ensures open { InsideIsOpen }
    ensures closed { InsideIsClosed }
{}
