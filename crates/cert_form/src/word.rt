ghost use Rattle.std.specs.Prelude.{◌≡◌};
ghost use Rattle.cert_form.specs.Code.Reading.{word_in};

/// The word of a rule.
#[derive(Clone, Copy)]
pub(crate) enum Word {
    Close,
    Both,
    Case,
    Cut,
    Round,
    Range,
    Same,
    Read,
    Inst,
    Truth,
    Divide,
}

impl Word {
    pub(crate) fn of(text: &str) -> Option<Word>
        ensures { result ≡ word_in text.now }
    {
        match text {
            "close" => Some(Word::Close),
            "both" => Some(Word::Both),
            "case" => Some(Word::Case),
            "cut" => Some(Word::Cut),
            "round" => Some(Word::Round),
            "range" => Some(Word::Range),
            "same" => Some(Word::Same),
            "read" => Some(Word::Read),
            "inst" => Some(Word::Inst),
            "truth" => Some(Word::Truth),
            "divide" => Some(Word::Divide),
            _ => None,
        }
    }
}
