// Histories of paragraph takers: steps with their answers, and what follows from them.
#![tactic(auto)]

ghost use Rattle.history.specs.Stated.{HistoriesAsStated};
ghost use Rattle.history.specs.Chopped.{ChoppingIsHarmless};

use taker::paragraph_taker::ParagraphTaker;

// Every history of a taker leads where the rules lead for its orders, and is answered as they state.
pub fn histories_as_stated<T: ParagraphTaker>(taker: &T)
    ensures { HistoriesAsStated (T.ParagraphTaker.means taker.now) }
{
    let _ = taker;
}

// Of two takers that cannot be told apart, the same orders lead to such takers again, wherever the text was cut.
pub fn chopping_is_harmless<T: ParagraphTaker>(one: &T, other: &T)
    ensures { ChoppingIsHarmless (T.ParagraphTaker.means one.now) (T.ParagraphTaker.means other.now) }
{
    let _ = one;
    let _ = other;
}
