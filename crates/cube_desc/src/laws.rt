// What holds of all descriptors.

ghost use Rattle.cube_desc.specs.Sound.{DescriptorsAreSound};

/// The numbers of a cube that bytes describe are those of tables and columns that are there, of the types that their use asks for.
pub fn descriptors_are_sound()
    ensures { DescriptorsAreSound }
{}
