//! Laws: what is due for files without fault.
ghost use Rattle.commands.specs.Laws.{Assembles, Images, Lists, NamesFiles};

/// Law: for files without fault, what is due is the ELF file of a source, the listing of an ELF file, and the image of a
/// manifest and the files that it names.
pub fn whole_files_are_due()
    ensures assembles { Assembles }
    ensures lists { Lists }
    ensures names_files { NamesFiles }
    ensures images { Images }
{}
