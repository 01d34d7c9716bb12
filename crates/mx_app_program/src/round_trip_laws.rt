//! Laws of the roundtrip: a text's instructions in the code and in the listing.

ghost use Rattle.std.specs.Prelude.{◌<◌, ◌^◌, List, length};
ghost use Rattle.mx_asm_statement.specs.declared.line.Line.{Line};
ghost use Rattle.mx_aout.specs.declared.program.Program.{Program};
ghost use Rattle.mx_asm.specs.Assembled.{AreAssembled};
ghost use Rattle.mx_exec.specs.Image.{code_bytes};
ghost use Rattle.mx_load.specs.Load.{image_of_program};
ghost use Rattle.mx_dis.specs.declared.part.Part.{Part};
ghost use Rattle.mx_dis.specs.Parting.{IsParting};
ghost use Rattle.mx_app_program.specs.Around.{CodeKeeps, PartsKeep};

use mx_dis::parted_there;
use mx_encode::chosen_spells;

/// Law: the code of a program that was assembled has each statement's bytes at its address.
pub fn code_keeps()
    ensures { (lines : List Line) (p : Program) (made : AreAssembled lines p)
        → length p.text < 2 ^ 32 → CodeKeeps lines p made (code_bytes (image_of_program p)) }
{}

/// Law: the parts of a program's text have each instruction at its address, if no directive before it puts
/// bytes into the text.
pub fn listing_keeps()
    ensures { (lines : List Line) (p : Program) (made : AreAssembled lines p) (parts : List Part)
        → length p.text < 2 ^ 32 → IsParting p.text parts → PartsKeep lines p made parts }
{
    chosen_spells();
    parted_there();
}
