//! The machine of the access engine, as definitions over an abstract policy: contents, seats, calls, series;
//! where a policy lets knowledge flow; and the theorem that two types are separated exactly if no chain leads from the one to the other.
//! There is nothing to run: each function stands for the laws that its contract names.
#![tactic(auto)]

ghost use Rattle.std.specs.Prelude.{◌≡◌, true};
ghost use Rattle.machine.specs.Separation.{TypesSeparatedExactly, SetsSeparatedExactly, SetsSeparatedFreely};
ghost use Rattle.machine.specs.Leak.{EveryChainLeaks};
ghost use Rattle.machine.specs.Laws.{NumbersTellRefusalsApart, RefusalChangesOnlyTheList, CallTouchesOneObjectAndOneSeat, StartTouchesOneSeat, ChangingTellsNothing, OnlyAbsenceLooks, AnswerDependsOnSeatAndObject, ListsPlayNoPart, SeatsStayLive, ContentsStayPossible};
ghost use Rattle.machine.specs.Places.{FewPlacesServeNobody, EnoughPlacesServeAll};
ghost use Rattle.machine.specs.Trails.{NumbersTellNodesApart, TrailsLeadTheWay};
ghost use Rattle.machine.specs.Valve.{OneWay};

// Two types, and two sets of objects, are separated exactly if the policy has no chain from the one to the other.
pub fn no_chain_exactly_when_separated() -> bool
    ensures types { TypesSeparatedExactly }
    ensures sets { SetsSeparatedExactly }
    ensures freely { SetsSeparatedFreely }
    ensures answer { result ≡ true }
{
    true
}

// Every chain gives two beginnings and a series of permitted calls that make its last object differ.
pub fn every_chain_leaks() -> bool
    ensures leak { EveryChainLeaks }
    ensures answer { result ≡ true }
{
    true
}

// What a call and a start may change, and over which stores.
pub fn calls_change_little() -> bool
    ensures refused { RefusalChangesOnlyTheList }
    ensures touches { CallTouchesOneObjectAndOneSeat }
    ensures starts { StartTouchesOneSeat }
    ensures served { EnoughPlacesServeAll }
    ensures unserved { FewPlacesServeNobody }
    ensures answer { result ≡ true }
{
    true
}

// What an answer may depend on.
pub fn answers_tell_little() -> bool
    ensures changing { ChangingTellsNothing }
    ensures absence { OnlyAbsenceLooks }
    ensures depends { AnswerDependsOnSeatAndObject }
    ensures lists { ListsPlayNoPart }
    ensures numbers { NumbersTellRefusalsApart }
    ensures answer { result ≡ true }
{
    true
}

// What holds after every series.
pub fn states_stay_sound() -> bool
    ensures live { SeatsStayLive }
    ensures possible { ContentsStayPossible }
    ensures answer { result ≡ true }
{
    true
}

// What the nodes of a chain are, and their numbers.
pub fn trails_lead_the_way() -> bool
    ensures trails { TrailsLeadTheWay }
    ensures nodes { NumbersTellNodesApart }
    ensures answer { result ≡ true }
{
    true
}

// The theorem is about something: a policy with two types that are separated one way and not the other.
pub fn some_types_are_separated_and_some_not() -> bool
    ensures valve { OneWay }
    ensures answer { result ≡ true }
{
    true
}
