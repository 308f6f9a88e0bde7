//! Laws of the frames, stated as contracts of functions with an empty body.
ghost use Rattle.wire_format.specs.Laws.{PartsAreNoFrames, RepliesAreApart, RequestsAreApart};

/// States that bytes can be divided into frames in one way only.
///
/// If the same bytes begin with two requests, the two have the same head, texts and body, and the same bytes follow
/// them. The same holds for replies. A part of a request begins with no request.
pub fn frames()
    ensures requests { RequestsAreApart }
    ensures replies { RepliesAreApart }
    ensures parts { PartsAreNoFrames }
{}
