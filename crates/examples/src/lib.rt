// Worked mails, proved together, and tests of what no contract can show.
#![tactic(auto)]

ghost use Rattle.examples.specs.Mails.{Mails};

#[cfg(test)]
mod composer_orders;
#[cfg(test)]
mod dot_refusals;
#[cfg(test)]
mod end_refusals;
#[cfg(test)]
mod piles;
#[cfg(test)]
mod seen;
#[cfg(test)]
mod store_orders;
#[cfg(test)]
mod undoing_refusals;

// The worked mails are what the definitions give.
pub fn mails_stand()
    ensures { Mails }
{}
