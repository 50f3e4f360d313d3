//! Laws of filled images. None of these functions does anything when it is called.
ghost use Rattle.laws_image_indexes.specs.Laws.{FilledHasIndexes, FilledHasOwnedIndexes, FilledHasPlainIndexes};

/// The cells of the rows of modules, types, fields, methods, parameters, events, properties, assemblies and externs lead to rows and
/// heap entries that are there.
pub fn plain_indexes()
    ensures { FilledHasPlainIndexes }
{}

/// The cells of the rows that belong to those of other tables, as interfaces, constants, attributes, layouts, offsets, runs, accessors,
/// overrides, data, nesting and generic parameters, lead to rows and heap entries that are there.
pub fn owned_indexes()
    ensures { FilledHasOwnedIndexes }
{}

/// All cells of an image that is filled lead to rows and heap entries that are there, so that they fit the widths of their columns
/// (ECMA-335 II.24.2.6).
pub fn indexes_are_there()
    ensures { FilledHasIndexes }
{}
