//! The laws, as contracts of functions that do nothing.

ghost use Rattle.apart_law.specs.Law.{StoringOnceIsApart, TextsAreOfC, TextsStoringOnceAreApart};

/// Ghost and concrete code of a source are apart, if its atomic blocks store once and what isn't ghost has types of C.
pub fn storing_once_is_apart()
    ensures { StoringOnceIsApart }
{}

/// What isn't ghost in a text has types of C.
pub fn texts_are_of_c()
    ensures { TextsAreOfC }
{}

/// So ghost and concrete code of a text are apart, if its atomic blocks store once.
pub fn texts_storing_once_are_apart()
    ensures { TextsStoringOnceAreApart }
{}
