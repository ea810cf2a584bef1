//! What holds of mappings that were read, and of the canonical text of their entries.

ghost use Rattle.read_back.specs.Kept.{EachMappingIsKept};
ghost use Rattle.read_back.specs.Laws.{CanonicalTextReadsBack};

/// That each mapping that is read keeps the limits: its expressions open at most 100 constructs and
/// have at most 1,000 operators each, its numbers are literals, and no new side of a match is the
/// word `none`.
pub fn mappings_keep_limits()
    ensures { EachMappingIsKept }
{}

/// Where each entry of a mapping that was read is sound between two programs whose names can be
/// spelt, as those of all accepted sources can, the canonical text of the entries is a mapping too,
/// and its canonical entries are the same.
pub fn canonical_text_reads_back()
    ensures { CanonicalTextReadsBack }
{}
