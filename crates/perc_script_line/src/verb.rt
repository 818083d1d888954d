// The first words of lines.
ghost use Rattle.std.specs.Prelude.{◌≡◌};
ghost use Rattle.perc_script_line.specs.Script as spec;

/// What a line's first word asks for.
#[derive(Clone, Copy)]
pub enum Verb {
    Conference,
    Ekt,
    Join,
    Leave,
    Grant,
    Rekey,
    Send,
    Rtcp,
    Inject,
    Alter,
    Graft,
    Reseal,
    Forward,
    Deliver,
}

const VERBS: [Verb; 14] = [
    Verb::Conference,
    Verb::Ekt,
    Verb::Join,
    Verb::Leave,
    Verb::Grant,
    Verb::Rekey,
    Verb::Send,
    Verb::Rtcp,
    Verb::Inject,
    Verb::Alter,
    Verb::Graft,
    Verb::Reseal,
    Verb::Forward,
    Verb::Deliver,
];

/// The verb that the word is.
#[tactic(auto, unfolding(crate::specs::Script::verb_in))]
pub fn verb_in(word: &[u8]) -> Option<Verb>
    ensures { result ≡ spec.verb_in word.now }
{
    VERBS.iter().copied().find(|verb| verb_text(*verb) == word)
}

// The word for the verb.
fn verb_text(verb: Verb) -> &'static [u8]
    ensures { result.now ≡ spec.verb_text verb }
{
    match verb {
        Verb::Conference => b"conference",
        Verb::Ekt => b"ekt",
        Verb::Join => b"join",
        Verb::Leave => b"leave",
        Verb::Grant => b"grant",
        Verb::Rekey => b"rekey",
        Verb::Send => b"send",
        Verb::Rtcp => b"rtcp",
        Verb::Inject => b"inject",
        Verb::Alter => b"alter",
        Verb::Graft => b"graft",
        Verb::Reseal => b"reseal",
        Verb::Forward => b"forward",
        Verb::Deliver => b"deliver",
    }
}
