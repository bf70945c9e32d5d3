//! What holds of all answers.
ghost use Rattle.post_http.specs.Answers.{AnswersAgree};

/// The same bytes behind a request hold the same answer, whatever the pieces in which they came.
pub fn answers_agree()
    ensures { AnswersAgree }
{}
