// The paths of the parts that are wanted.
ghost use Rattle.std.specs.Prelude.{◌≡◌, ◌==◌, ℕ, List, length, bytes_eq, IfOk};
ghost use Rattle.std.specs.List.{list_any};
ghost use Rattle.std.specs.BTreeSet.{contains_by};
ghost use Rattle.std.specs.Cmp.Lexicographic.{slice_cmp};
ghost use Rattle.std.specs.Ordering.{nat_cmp};

use mime_tree::PartPath;
use std::alloc::{AllocError, Global};
use std::collections::BTreeSet;
use std::marker::Model;

/// The paths of the parts that are wanted, among which one is found soon.
#[derive(Drop)]
pub(crate) struct Wanted<'a> {
    paths: &'a [PartPath],
    keys: BTreeSet<&'a [u64]>,
}

impl<'a> Model for Wanted<'a> {
    ghost use Rattle.std.specs.Prelude.{◌≡◌, ℕ, List, bytes_eq};
    ghost use Rattle.std.specs.List.{list_any};
    ghost use Rattle.std.specs.BTreeSet.{contains_by};
    ghost use Rattle.std.specs.Cmp.Lexicographic.{slice_cmp};
    ghost use Rattle.std.specs.Ordering.{nat_cmp};

    ghost Value = { List (List ℕ) };

    ghost view = { λ w. w.paths.now };

    ghost invariant = { λ w. (path : List ℕ)
        → contains_by (λ k. slice_cmp nat_cmp path k.now) w.keys ≡ list_any (λ p. bytes_eq p path) w.paths.now };
}

fn keys_of<'a>(alloc: Global, paths: &'a [PartPath]) -> Result<BTreeSet<&'a [u64]>, AllocError>
    ensures { IfOk result
        (λ keys. (path : List ℕ)
        → contains_by (λ k. slice_cmp nat_cmp path k.now) keys ≡ list_any (λ p. bytes_eq p path) paths.now) }
{
    let mut keys = BTreeSet::new(alloc);
    for path in paths {
        let _ = keys.insert(path.numbers().as_slice())?;
    }
    Ok(keys)
}

impl<'a> Wanted<'a> {
    pub(crate) fn of(alloc: Global, paths: &'a [PartPath]) -> Result<Wanted<'a>, AllocError>
        ensures { IfOk result (λ w. w ≡ paths.now) }
    {
        Ok(Wanted {
            paths,
            keys: keys_of(alloc, paths)?,
        })
    }

    pub(crate) fn is_empty(&self) -> bool
        ensures { result ≡ (length self.now == 0) }
    {
        self.paths.is_empty()
    }

    pub(crate) fn has(&self, path: &PartPath) -> bool
        ensures { result ≡ list_any (λ p. bytes_eq p path.now) self.now }
    {
        self.keys.contains(path.numbers().as_slice())
    }
}
