//! What an edit of a text does to the kinds of its tokens.
ghost use Rattle.std.specs.Prelude.{◌≡◌, ◌+◌, ◌^◌, ◌<◌, ◌≤◌, length, drop, IfOk};
ghost use Rattle.spec_lexing.specs.Tokens.{kinds_of};
ghost use Rattle.text_store.specs.TokenEdits.{IsTrimmedEdit};
ghost use Rattle.text_store.specs.Trimming.{ShareLongestPrefix, ShareLongestSuffix};

use spec_lexing::Token;
use sqlite_items::Items;
use std::alloc::{AllocError, Global};

/// What one has to do to the kinds of a text's tokens to get those of another: so many of them, from
/// the token `first` on, are replaced by others.
#[derive(Debug, Drop)]
pub struct TokenEdit {
    pub first: u32,
    pub deleted: u32,
    pub inserted: Items<Option<u16>>,
}

/// How many tokens at the beginning of both have the same kinds.
fn common_prefix(old: &[Token], new: &[Token]) -> usize
    ensures { ShareLongestPrefix (kinds_of old.now) (kinds_of new.now) result }
{
    let most = old.len().min(new.len());
    for len in 0..most {
        if old[len].kind != new[len].kind {
            return len;
        }
    }
    most
}

/// How many tokens at the end of both have the same kinds.
fn common_suffix(old: &[Token], new: &[Token]) -> usize
    ensures { ShareLongestSuffix (kinds_of old.now) (kinds_of new.now) result }
{
    let most = old.len().min(new.len());
    for len in 0..most {
        if old[old.len() - len - 1].kind != new[new.len() - len - 1].kind {
            return len;
        }
    }
    most
}

/// The kind of each token.
fn kinds_of(alloc: Global, tokens: &[Token]) -> Result<Vec<Option<u16>>, AllocError>
    ensures { IfOk result (λ kinds. kinds.items ≡ kinds_of tokens.now) }
{
    tokens.iter().map(|token| token.kind).collect(alloc)
}

/// The edit from the kinds of the old tokens to those of the new ones, without their longest common
/// prefix and then the longest common suffix of what is left.
pub(crate) fn token_edit(
    alloc: Global,
    old: &[Token],
    new: &[Token],
) -> Result<TokenEdit, AllocError>
    requires short { length old.now < 2 ^ 32 }
    ensures { IfOk result (IsTrimmedEdit (kinds_of old.now) (kinds_of new.now)) }
{
    let first = common_prefix(old, new);
    let (old_rest, new_rest) = (&old[first..], &new[first..]);
    let kept = common_suffix(old_rest, new_rest);
    let inserted = &new_rest[..new_rest.len() - kept];
    Ok(TokenEdit {
        first: first as u32,
        deleted: (old_rest.len() - kept) as u32,
        inserted: Items::from_vec(kinds_of(alloc, inserted)?),
    })
}
