ghost use Rattle.std.specs.Prelude.{◌≡◌};
ghost use Rattle.cable_script.specs.Reading.{verb_named};

use cable_model::VerbName;

/// The verb that is written so.
pub fn verb_named(word: &str) -> Option<VerbName>
    ensures { result ≡ verb_named word.now }
{
    Some(match word {
        "boot" => VerbName::Boot,
        "open" => VerbName::Open,
        "in" => VerbName::In,
        "drop" => VerbName::Drop,
        "stop" => VerbName::Stop,
        "take" => VerbName::Take,
        "put" => VerbName::Put,
        "finish" => VerbName::Finish,
        "work" => VerbName::Work,
        "cast" => VerbName::Cast,
        "trim" => VerbName::Trim,
        "ask" => VerbName::Ask,
        "read" => VerbName::Read,
        "deliver" => VerbName::Deliver,
        "poll" => VerbName::Poll,
        "beat" => VerbName::Beat,
        "fault" => VerbName::Fault,
        _ => return None,
    })
}
