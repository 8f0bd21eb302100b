// The search as it is written down, and what it comes to with any lawful pruner. The definitions compute; the crate
// `search` has the code that is proved equal to them.
#![tactic(auto)]

ghost use Rattle.search_rules.specs.Right.{SearchRight, BetteringsCounted};

// With any lawful tariff and pruner the search finds the cheapest plan within the ceiling, of equals the first in plan
// order, or that there is none; and a step limit of at least the number of part-plans never stops it.
pub fn search_is_right()
    ensures { SearchRight }
{}

// The betterings of a search are the plans, in plan order, that are within the ceiling and cheaper than all before them:
// all of them where it was not stopped, and else the first so many. Its best is the last of these.
pub fn betterings_are_counted()
    ensures { BetteringsCounted }
{}
