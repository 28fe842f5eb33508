//! The word with which a line begins, or what it starts.
ghost use Rattle.std.specs.Prelude.{◌≡◌, ◌≢◌, IfSome, IfNone, true};
ghost use Rattle.device_model.specs.Grammar;
ghost use Rattle.device_model.specs.Grammar.{IsAskingWord, is_asking, verb_word};
ghost use Rattle.script_text.specs.Verb.{ask_verb_of, verb_of};

/// What a request is asked for by.
#[derive(Clone, Copy)]
pub enum AskVerb {
    Fill,
    Write,
    Read,
    Flush,
}

/// What a line without `start` begins with.
#[derive(Clone, Copy)]
pub enum Verb {
    Ask(AskVerb),
    Serve,
    Take,
    Step,
}

/// What a request is asked for by, if the word names one.
pub fn ask_verb_by_word(word: &[u8]) -> Option<AskVerb>
    ensures some { IfSome result (λ verb. word.now ≡ verb_word (ask_verb_of verb)) }
    ensures none { IfNone result (¬ IsAskingWord word.now) }
{
    match word {
        b"fill" => Some(AskVerb::Fill),
        b"write" => Some(AskVerb::Write),
        b"read" => Some(AskVerb::Read),
        b"flush" => Some(AskVerb::Flush),
        _ => None,
    }
}

/// What a line begins with, if the word names it.
pub fn verb_by_word(word: &[u8]) -> Option<Verb>
    ensures some { IfSome result (λ verb. word.now ≡ verb_word (verb_of verb)) }
    ensures none { IfNone result ((verb : Grammar.Verb) → word.now ≢ verb_word verb) }
{
    if let Some(ask) = ask_verb_by_word(word) {
        return Some(Verb::Ask(ask));
    }
    match word {
        b"serve" => Some(Verb::Serve),
        b"take" => Some(Verb::Take),
        b"step" => Some(Verb::Step),
        _ => None,
    }
}
