//! Laws of the messages that are sent, carried by the contracts of functions.

ghost use Rattle.advices.specs.Valid.{CoverReads, CreditPasses, DebitPasses, PassReads, TransferReads};

/// The notice of a debit passes the tests of an MT900, and that of a credit those of an MT910, under the tables under
/// which the received message passed its own.
pub fn sent_messages_pass()
    ensures debit { DebitPasses }
    ensures credit { CreditPasses }
{}

/// The transfer that a pay asks for, its cover, and a cover that is passed on are read of their fields and break no rule, under
/// the tables under which the received message passed its tests.
pub fn sent_onward_reads()
    ensures transfer { TransferReads }
    ensures cover { CoverReads }
    ensures pass { PassReads }
{}
