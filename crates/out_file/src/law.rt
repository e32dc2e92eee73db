//! A law of mended files, carried by the contract of a function.

ghost use Rattle.out_file.specs.Mended.{CutsAreMended};

/// Whole messages, and then those of one command as far as they were written when it was stopped: mended by what the command was to
/// write, the file is the one that the command would have left.
pub fn cuts_are_mended()
    ensures { CutsAreMended }
{}
