//! Laws of what is told of received pages, each carried by the contract of a function.

ghost use Rattle.reconcile.specs.LeftOut.{FewCompared, NoneLeftOut};

/// Of a legal history no statement is left out where each account and day come once among those that the pages are: three legs of each of
/// 100,000 entries are as many as may be compared.
pub fn none_left_out()
    ensures { NoneLeftOut }
{}

/// However often an account and a day come, the statements that aren't left out are compared with at most 300,000 entries of ours together.
pub fn few_compared()
    ensures { FewCompared }
{}
