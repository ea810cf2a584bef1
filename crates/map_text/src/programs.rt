//! The two programs of a patch, as its text needs them.

ghost use Rattle.std.specs.Prelude.{◌≡◌, IfOk};
ghost use Rattle.c_places.specs.Limit.{KeepsLimit};
ghost use Rattle.c_tree.specs.Link.{link_of};

use crate::points::Points;
use c_tree::{LEntry, Lifted};
use patch_match::Link;
use std::alloc::{AllocError, Global};
use std::marker::Model;

/// The link of two programs, and the points of both. Contracts see the link.
pub struct Programs<'a> {
    link: Link<'a>,
    old: Points<'a>,
    new: Points<'a>,
}

impl Drop for Programs<'_> {
    fn drop(self) {
        let Programs {
            link: _,
            old: _,
            new: _,
        } = self;
    }
}

impl<'a> Model for Programs<'a> {
    ghost use Rattle.std.specs.Prelude.{◌≡◌};
    ghost use Rattle.std.specs.Coded.{codes};
    ghost use Rattle.c_tree.specs.Link.{Link};
    ghost use Rattle.c_tree.specs.contracts.lifted.Lifted as lifted;

    ghost Value = { Link };

    ghost coded = { Prim.hlevel (codes, lifted.the_row.coded) };

    ghost view = { λ p. p.link };

    ghost invariant = { λ p. (p.old ≡ p.link.old) × (p.new ≡ p.link.new) };
}

impl<'a> Programs<'a> {
    /// The link that the entries of a patch make, and the points of both programs, whose functions
    /// keep the limit of places.
    pub fn of(
        alloc: Global,
        old: &'a Lifted,
        new: &'a Lifted,
        entries: &[LEntry],
    ) -> Result<Programs<'a>, AllocError>
        requires old_limit { KeepsLimit old.now }
        requires new_limit { KeepsLimit new.now }
        ensures { IfOk result (λ p. p ≡ link_of old.now new.now entries.now) }
    {
        let link = Link::by_numbers(alloc, old, new, entries)?;
        let old = Points::of(alloc, old)?;
        let new = Points::of(alloc, new)?;
        Ok(Programs { link, old, new })
    }

    /// How the two programs belong together.
    pub fn link(&self) -> &Link<'a>
        ensures { result.now ≡ self.now }
    {
        &self.link
    }

    /// The points of the old program.
    pub fn old(&self) -> &Points<'a>
        ensures { result.now ≡ self.now.old }
    {
        &self.old
    }

    /// The points of the new program.
    pub fn new(&self) -> &Points<'a>
        ensures { result.now ≡ self.now.new }
    {
        &self.new
    }
}
