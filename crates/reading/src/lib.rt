// What the wire bytes of format=flowed mail (RFC 3676) mean to a reader: lines, paragraphs, and the account byte by byte.
#![tactic(auto)]

ghost use Rattle.reading.specs.Laws.{BytesInTurn, ContentsKept, LinesRead, OnlyLinesRead};
ghost use Rattle.reading.specs.InOrder.{HandedInOrder};
ghost use Rattle.reading.specs.Refusals.{Refusals};
ghost use Rattle.reading.specs.Held.{ToldByBytes};
ghost use Rattle.reading.specs.Sent.{SentReadsBack, SentApart};
ghost use Rattle.reading.specs.Mails.{Mails};

// What is proved of readings, a clause each.
pub fn readings_stand()
    ensures in_turn { BytesInTurn }
    ensures kept { ContentsKept }
    ensures lines { LinesRead }
    ensures only { OnlyLinesRead }
    ensures order { HandedInOrder }
    ensures refusals { Refusals }
    ensures held { ToldByBytes }
    ensures back { SentReadsBack }
    ensures apart { SentApart }
    ensures mails { Mails }
{}
