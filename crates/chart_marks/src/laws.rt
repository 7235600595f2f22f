//! Laws of pictures.
ghost use Rattle.chart_marks.specs.Messages.{EachMessageHasItsArrow};

/// Each message of a run has its arrow, in its place and between its lanes, and no arrow is without a message.
pub fn each_message_has_its_arrow()
    ensures { EachMessageHasItsArrow }
{}
