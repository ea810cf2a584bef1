//! A law on the texts.

ghost use Rattle.load_texts.specs.Laws as laws;

/// A mapping of at most 1000 functions keeps the limit of 1,048,576 bytes of a mapping's file.
pub fn mappings_are_short()
    ensures { laws.MappingsAreShort }
{}
