//! Laws of the texts of schedules.

ghost use Rattle.schedule_format.specs.Laws.{TextLaw, FrontLaw};

/// Reading gives back what was written, and a text has no other text of a schedule at its front.
pub fn text_laws()
    ensures text { TextLaw }
    ensures front { FrontLaw }
{}
