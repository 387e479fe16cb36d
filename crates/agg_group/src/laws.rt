// The law of the built masks, over every cube.

ghost use Rattle.agg_group.specs.Built.{BuiltMasksAreBuilt};

/// The built masks rise, and are the masks of the built sets and no others.
pub fn laws_of_built_masks()
    ensures { BuiltMasksAreBuilt }
{}
