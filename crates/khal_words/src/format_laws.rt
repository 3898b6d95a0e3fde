//! Laws of formats.
ghost use Rattle.khal_words.specs.Formats.{day_name, entry_name, OneFormat};

/// A text is read as a format in one way.
pub fn one_format()
    ensures entries { OneFormat entry_name }
    ensures days { OneFormat day_name }
{}
