// What stands before and behind the attributes of a directive.
ghost use Rattle.std.specs.Prelude.{◌≡◌, MatchOption, Some, None};
ghost use Rattle.mime_tree.specs.Words.{word_of};
ghost use Rattle.mh_drafts.specs.RawEnclosed.{heading_of, trail_of};
ghost use Rattle.mh_drafts.specs.Trails.{heading_in, slashed_in, trail_in};

use crate::attributes::{behind_byte, behind_word};
use crate::enclosed::{read_comment, read_enclosed};
use mime_tree::{Word, first_token};

/// A type and its subtype, and what follows them.
#[derive(Clone, Copy, Debug)]
pub(crate) struct Heading<'a> {
    pub(crate) kind: &'a [u8],
    pub(crate) subtype: &'a [u8],
    pub(crate) rest: &'a [u8],
}

/// What stands behind the attributes.
#[derive(Clone, Copy, Debug)]
pub(crate) struct Trail<'a> {
    pub(crate) comment: Option<&'a [u8]>,
    pub(crate) id: Option<&'a [u8]>,
    pub(crate) description: Option<&'a [u8]>,
    pub(crate) disposition: Option<&'a [u8]>,
    pub(crate) file: &'a [u8],
}

fn slashed<'a>(kind: Word<'a>, subtype: Word<'a>) -> Option<Heading<'a>>
    ensures { MatchOption result (slashed_in (word_of kind.entry) (word_of subtype.entry) ≡ None)
        (λ h. slashed_in (word_of kind.entry) (word_of subtype.entry) ≡ Some (heading_of h)) }
{
    Some(Heading {
        kind: kind.value,
        subtype: subtype.value,
        rest: behind_word(subtype.rest)?,
    })
}

/// The type at the front.
pub(crate) fn read_heading(text: &[u8]) -> Option<Heading<'_>>
    ensures { MatchOption result (heading_in text.now ≡ None) (λ h. heading_in text.now ≡ Some (heading_of h)) }
{
    let kind = first_token(text)?;
    slashed(kind, first_token(behind_byte(kind.rest, b'/')?)?)
}

/// What stands behind the attributes.
pub(crate) fn read_trail(text: &[u8]) -> Option<Trail<'_>>
    ensures { MatchOption result (trail_in text.now ≡ None) (λ t. trail_in text.now ≡ Some (trail_of t)) }
{
    let comment = read_comment(text)?;
    let id = read_enclosed(comment.rest, b'<', b'>')?;
    let description = read_enclosed(id.rest, b'[', b']')?;
    let disposition = read_enclosed(description.rest, b'{', b'}')?;
    Some(Trail {
        comment: comment.inside,
        id: id.inside,
        description: description.inside,
        disposition: disposition.inside,
        file: disposition.rest,
    })
}
