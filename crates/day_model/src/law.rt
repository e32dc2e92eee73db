//! Laws of histories, of changes, of items and of totals, carried by the contracts of functions.

ghost use Rattle.day_model.specs.Items.{ChangeStandsLast, EntryStandsLast, ItemsReadBack};
ghost use Rattle.day_model.specs.Laws.{AccountsOfNow, ChangeStaysLegal, EmptyIsLegal, FoldAgain, FoldBegins, FoldIsLegal, FoldOfAppend};
ghost use Rattle.day_model.specs.Laws.{FrontFollowsRules, FrontIsLegal, HistoryIsFold, PaysFitNow, PlacesStay};
ghost use Rattle.day_model.specs.Totals.{BalanceIsByTotals, EntryAddsItsLegs, LegalTotalsFit};

/// The empty history of accounts without changes is legal. What folding pays into a history gives: it begins with that
/// history, and is legal where the history is and the pays fit; pays one after another are folded as one list; pays that
/// come again add nothing; an entry keeps its place; and entries of one day that follow a history by the rules are what
/// folding their pays gives.
pub fn fold_laws()
    ensures empty { EmptyIsLegal }
    ensures begins { FoldBegins }
    ensures legal { FoldIsLegal }
    ensures append { FoldOfAppend }
    ensures again { FoldAgain }
    ensures places { PlacesStay }
    ensures history { HistoryIsFold }
{}

/// Where all changes came by a time, the accounts of then are those of now. Each pay of a legal history fits those of now. The
/// front of a history that follows the rules follows them, and is legal where it has all changes. A legal change may come after
/// all entries of a legal history.
pub fn change_laws()
    ensures now { AccountsOfNow }
    ensures fits { PaysFitNow }
    ensures rules { FrontFollowsRules }
    ensures front { FrontIsLegal }
    ensures change { ChangeStaysLegal }
{}

/// Of the items of a book, an entry more or a change more is the last one; and they read back into its changes and its entries.
pub fn item_laws()
    ensures entry { EntryStandsLast }
    ensures change { ChangeStandsLast }
    ensures back { ItemsReadBack }
{}

/// A balance is the opening, plus the credits and minus the debits of the account's totals. An entry adds the legs that
/// it books to them, and after a legal history they fit 64 bits.
pub fn totals_laws()
    ensures balance { BalanceIsByTotals }
    ensures entry { EntryAddsItsLegs }
    ensures fit { LegalTotalsFit }
{}
