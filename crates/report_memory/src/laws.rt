//! What bytes that are laid over it make of a module: functions that do nothing, and whose contracts are laws.
ghost use Rattle.report_memory.specs.Laid.{LaidModulesAreValid, TheImageIsLaidOver};

/// The opening memory is the module's own, with the bytes written over it from the address on.
pub fn the_image_is_laid_over()
    ensures { TheImageIsLaidOver }
{}

/// A valid module is valid with the segment of bytes that can be laid over its memory.
pub fn laid_modules_are_valid()
    ensures { LaidModulesAreValid }
{}
