ghost use Rattle.std.specs.Prelude.{◌≡◌};
ghost use Rattle.flt_script.specs.Line.{call_keywords, keyword_in, keyword_of, storage_keywords};

/// The first word of a line.
#[derive(Clone, Copy)]
pub(crate) enum Keyword {
    Pass,
    Fail,
    PrePass,
    PreFail,
    Show,
    Cycle,
    Tick,
    Signal,
    Enable,
    Request,
    Event,
    Did,
    Config,
    Memory,
    Blocks,
    Flash,
    Save,
    Post,
    Urge,
    Drain,
    Get,
    Ask,
    Power,
    Cut,
    Fault,
    Mute,
    Par,
    Lane,
    End,
}

/// The keyword that a word spells.
#[tactic(auto, unfolding(crate::specs::Line::keyword_of))]
pub(crate) fn read_keyword(word: &[u8]) -> Option<Keyword>
    ensures { result ≡ keyword_of word.now }
{
    match read_call_keyword(word) {
        Some(keyword) => Some(keyword),
        None => read_storage_keyword(word),
    }
}

/// The keyword that a word spells, of those of calls and settings.
fn read_call_keyword(word: &[u8]) -> Option<Keyword>
    ensures { result ≡ keyword_in call_keywords word.now }
{
    let keyword = match word {
        b"pass" => Keyword::Pass,
        b"fail" => Keyword::Fail,
        b"prepass" => Keyword::PrePass,
        b"prefail" => Keyword::PreFail,
        b"show" => Keyword::Show,
        b"cycle" => Keyword::Cycle,
        b"tick" => Keyword::Tick,
        b"sig" => Keyword::Signal,
        b"enable" => Keyword::Enable,
        b"t" => Keyword::Request,
        b"event" => Keyword::Event,
        b"did" => Keyword::Did,
        b"config" => Keyword::Config,
        b"memory" => Keyword::Memory,
        b"blocks" => Keyword::Blocks,
        b"flash" => Keyword::Flash,
        _ => return None,
    };
    Some(keyword)
}

/// The keyword that a word spells, of those for the store, the power and blocks.
fn read_storage_keyword(word: &[u8]) -> Option<Keyword>
    ensures { result ≡ keyword_in storage_keywords word.now }
{
    let keyword = match word {
        b"save" => Keyword::Save,
        b"post" => Keyword::Post,
        b"urge" => Keyword::Urge,
        b"drain" => Keyword::Drain,
        b"get" => Keyword::Get,
        b"ask" => Keyword::Ask,
        b"power" => Keyword::Power,
        b"cut" => Keyword::Cut,
        b"fault" => Keyword::Fault,
        b"mute" => Keyword::Mute,
        b"par" => Keyword::Par,
        b"lane" => Keyword::Lane,
        b"end" => Keyword::End,
        _ => return None,
    };
    Some(keyword)
}
