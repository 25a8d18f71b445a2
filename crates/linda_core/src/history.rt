//! The laws of histories.
ghost use Rattle.desk_object.specs.History.{IsLegal as IsLegalFor};
ghost use Rattle.linda_core.specs.BankMeaning.{bank_means};
ghost use Rattle.linda_core.specs.History.{History, IsFifo, IsLegal};

/// Every legal history of a bank is first in, first out, at each linda and each key.
pub fn fifo_law()
    ensures { (history : History) → IsLegal history → IsFifo history }
{}

/// A history that is legal for the bank as a desk's object is legal at each linda.
pub fn legal_law()
    ensures { (history : History) → IsLegalFor bank_means history → IsLegal history }
{}
