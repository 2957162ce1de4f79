// The parts of a tree, one after another.
ghost use Rattle.std.specs.Prelude.{◌≡◌, ◌++◌, ◌∷◌, [], ℕ, List, map, OnOk};
ghost use Rattle.std.specs.List.{filter};
ghost use Rattle.mime_tree.specs.Trees.{IsPart};
ghost use Rattle.mime_tree.specs.declared.span.Span.{Span};
ghost use Rattle.part_rows.specs.Chosen.{chooses};
ghost use Rattle.part_rows.specs.PartViews.{Fallback, parts_at, view_of};

use crate::choices::Choice;
use mime_tree::Part;
use std::alloc::AllocError;

/// Adds a part where it is chosen.
fn push_one<'a>(
    parts: &mut Vec<&'a Part>,
    choice: &Choice<'_>,
    part: &'a Part,
) -> Result<(), AllocError>
    ensures { (bytes : List ℕ)
        → OnOk result
        (map (λ p. view_of bytes p.now) parts.new.items ≡ map (λ p. view_of bytes p.now) parts.old.items
        ++ filter (chooses choice.now) (view_of bytes part.now ∷ [])) }
{
    if choice.has(part) {
        parts.push(part)?;
    }
    Ok(())
}

/// Adds those of a part and the parts below it that are chosen, each before its kids.
pub(crate) fn push_chosen<'a>(
    parts: &mut Vec<&'a Part>,
    choice: &Choice<'_>,
    part: &'a Part,
) -> Result<(), AllocError>
    ensures { (levels : ℕ) (bytes : List ℕ) (fallback : Fallback) (path : List ℕ) (span : Span)
        → IsPart levels bytes fallback path span part.now
        → OnOk result
        (map (λ p. view_of bytes p.now) parts.new.items ≡ map (λ p. view_of bytes p.now) parts.old.items
        ++ filter (chooses choice.now) (parts_at levels bytes fallback path span)) }
{
    push_one(parts, choice, part)?;
    for kid in part.kids.as_slice() {
        push_chosen(parts, choice, kid)?;
    }
    Ok(())
}
