//! What the match entries of one kind name.

ghost use Rattle.std.specs.Prelude.{◌≡◌, ℕ, [], ◌∷◌, ◌++◌, List, length, replicate, false, true, slice_index_or, IfOk};
ghost use Rattle.c_tree.specs.Link.{Claim};
ghost use Rattle.patch_match.specs.Sides as spec;
ghost use Rattle.patch_match.specs.declared.sides.Said.TheVariants.{Nothing};

use std::alloc::{AllocError, Global};

/// What entries say of an old thing.
#[derive(Clone, Copy, PartialEq, Eq)]
pub enum Said {
    Nothing,
    /// Entries name it, but none of them is sound.
    Named,
    /// The new side of the first sound entry that names it.
    Matched(Option<u32>),
}

/// What entries say of the old things of one kind, and which new ones they name.
pub struct Sides {
    pub said: Vec<Said>,
    pub named: Vec<bool>,
}

impl Drop for Sides {
    fn drop(self) {
        let Sides { said: _, named: _ } = self;
    }
}

impl Said {
    /// What is said with one entry more.
    fn and(self, new: Option<u32>, stands: bool) -> Said
        ensures { result ≡ spec.and self new stands }
    {
        match self {
            Said::Matched(first) => Said::Matched(first),
            Said::Nothing | Said::Named => if stands {
                Said::Matched(new)
            } else {
                Said::Named
            },
        }
    }
}

fn note_old(said: &mut Vec<Said>, old: Option<u32>, new: Option<u32>, stands: bool)
    ensures { said.new.items ≡ spec.with_said said.old.items old (λ s. spec.and s new stands) }
{
    if let Some(old) = old {
        if (old as usize) < said.len() {
            let was = said[old as usize];
            said[old as usize] = was.and(new, stands);
        }
    }
}

fn note_new(named: &mut Vec<bool>, new: Option<u32>)
    ensures { named.new.items ≡ spec.with_named named.old.items new }
{
    if let Some(new) = new {
        if (new as usize) < named.len() {
            named[new as usize] = true;
        }
    }
}

fn nothing(alloc: Global, n: usize) -> Result<Vec<Said>, AllocError>
    ensures { IfOk result (λ said. said.items ≡ replicate n Nothing) }
{
    let mut said = Vec::new(alloc);
    'nothing: for _ in 0..n {
        said.push(Said::Nothing)?;
    }
    Ok(said)
}

fn unnamed(alloc: Global, n: usize) -> Result<Vec<bool>, AllocError>
    ensures { IfOk result (λ named. named.items ≡ replicate n false) }
{
    let mut named = Vec::new(alloc);
    'unnamed: for _ in 0..n {
        named.push(false)?;
    }
    Ok(named)
}

impl Sides {
    /// What no entry says of so many old and new things.
    pub fn new(alloc: Global, olds: usize, news: usize) -> Result<Sides, AllocError>
        ensures { IfOk result (λ s. spec.Tells s [] olds news) }
    {
        let said = nothing(alloc, olds)?;
        let named = unnamed(alloc, news)?;
        Ok(Sides { said, named })
    }

    /// Notes what an entry names, as far as it is there, and whether the entry is sound.
    pub fn note(&mut self, old: Option<u32>, new: Option<u32>, stands: bool)
        ensures { (claims : List Claim) (n m : ℕ) → spec.Tells self.old claims n m
            → spec.Tells self.new (claims ++ spec.claim old new stands ∷ []) n m }
    {
        note_old(&mut self.said, old, new, stands);
        note_new(&mut self.named, new);
    }

    /// What is said of an old thing.
    pub fn said(&self, old: usize) -> Said
        ensures { result ≡ slice_index_or self.now.said.items old Nothing }
    {
        self.said.get(old).copied().unwrap_or(Said::Nothing)
    }

    /// Whether an entry names a new thing.
    pub fn is_named(&self, new: u32) -> bool
        ensures { result ≡ slice_index_or self.now.named.items new false }
    {
        self.named.get(new as usize).copied().unwrap_or(false)
    }
}
