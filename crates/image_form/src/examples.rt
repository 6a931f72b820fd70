//! Examples, each computed from the definitions alone. The function does nothing: it is here for what its contract says.
ghost use Rattle.image_form.specs.Examples.{EarlyEnds, FilesWrong, MagicWrong, RecordsWrong};

/// The first offsets at which files are wrong: of their headers, of their records, and of a file that ends early.
pub fn wrong_offsets()
    ensures files { FilesWrong }
    ensures magic { MagicWrong }
    ensures records { RecordsWrong }
    ensures early_ends { EarlyEnds }
{}
