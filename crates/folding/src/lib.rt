// How a paragraph's text is folded into lines of format=flowed mail (RFC 3676): definitions and laws, for the crates that send
// and read such lines.
#![tactic(auto)]

ghost use Rattle.folding.specs.Laws.{TrimmedTexts, LineWidths, GivenByRules, GivenBySteps, SoundFoldings, ShortLines, SignaturesAlone};
ghost use Rattle.folding.specs.Laws.{LinesStay, HeldFoldsOn};
ghost use Rattle.folding.specs.Tracking.{StartTracks, BytesTrack, EndsSettle, EndsTrack, TextsAgree, RefusedBytes, Refusals};
ghost use Rattle.folding.specs.Reading.{FoldingsReadBack};
ghost use Rattle.folding.specs.Mails.{Mails};

/// What is proved of foldings, a clause each.
pub fn foldings_stand() -> u8
    ensures trimmed { TrimmedTexts }
    ensures widths { LineWidths }
    ensures rules { GivenByRules }
    ensures steps { GivenBySteps }
    ensures sound { SoundFoldings }
    ensures short { ShortLines }
    ensures signatures { SignaturesAlone }
    ensures stay { LinesStay }
    ensures held { HeldFoldsOn }
    ensures start { StartTracks }
    ensures bytes { BytesTrack }
    ensures settle { EndsSettle }
    ensures end { EndsTrack }
    ensures agree { TextsAgree }
    ensures refused { RefusedBytes }
    ensures refusals { Refusals }
    ensures back { FoldingsReadBack }
    ensures mails { Mails }
{
    0
}
