//! Laws of texts.

ghost use Rattle.route_text.specs.TextLaws.{HaveOnePrefix, HaveOneMoment, HaveOneMark, AreMomentsRead, AreMarksRead};

/// No text has two prefixes, two moments or two marks.
pub fn texts_have_one_value()
    ensures prefix { HaveOnePrefix }
    ensures moment { HaveOneMoment }
    ensures mark { HaveOneMark }
{}

/// What is written of a moment or a mark is read as it.
pub fn moments_are_read()
    ensures moment { AreMomentsRead }
    ensures mark { AreMarksRead }
{}
