// What a script of the fixed cube may say.

ghost use Rattle.std.specs.Prelude.{◌≡◌};
ghost use Rattle.fixed_script.specs.Scripts.{is_fixed};

use script_reader::Instruction;

/// Whether a script of the fixed cube may say this.
pub fn is_fixed(said: &Instruction) -> bool
    ensures { result ≡ is_fixed said.now }
{
    match said {
        Instruction::Descriptor(path) => path.as_str().as_bytes() == b"fixed".as_slice(),
        Instruction::Load(name, _) => name.bytes() == b"F".as_slice(),
        Instruction::Refresh(_) => false,
        Instruction::Merge(_) => false,
        Instruction::Drop(_) => false,
        Instruction::Segments => false,
        Instruction::Query(_, text) => {
            text.as_slice() == b"select d1, count(*), sum(m) from f group by d1".as_slice()
        }
        Instruction::Build(_) => true,
        Instruction::Pause(_) => true,
        Instruction::Resume(_) => true,
        Instruction::Discard(_) => true,
        Instruction::AwaitJob(_) => true,
        Instruction::AwaitJobs => true,
        Instruction::AwaitQueries => true,
        Instruction::Jobs => true,
    }
}
