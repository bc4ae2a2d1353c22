ghost use Rattle.serve_session.specs.Laws.{AnswersAreOne, AnswersAreThere, OutTextIsOne};

/// What requests leave is one history, and whatever they are answered is one text, but for the line and the column of a C5 of a plant that a `reload`
/// hands in; and both are there. So it is of what may be written for an input, where no event came before it. (Only a law: the function does nothing.)
pub fn out_text_is_one()
    ensures one { AnswersAreOne }
    ensures there { AnswersAreThere }
    ensures text { OutTextIsOne }
{}
