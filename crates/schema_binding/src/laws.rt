//! Laws of all payloads and of all tables.

ghost use Rattle.schema_binding.specs.Agreement.{IsAgreementExclusive, IsDisagreementUnique, IsAgreementDecided};
ghost use Rattle.schema_binding.specs.Hello.{IsHelloUnique, IsFaultyLineUnique, IsHelloExclusive, IsHelloOrFaulty};

use table_text::{table_fault_is_unique, table_or_fault, table_text_is_unique};

/// A payload has exactly one service and table, or exactly one first line at fault, and never both. The call does
/// nothing; its clauses are the laws.
pub fn hello_is_unique()
    ensures once { IsHelloUnique }
    ensures bad_once { IsFaultyLineUnique }
    ensures never_both { IsHelloExclusive }
    ensures never_neither { IsHelloOrFaulty }
{
    table_text_is_unique();
    table_fault_is_unique();
    table_or_fault();
}

/// Under version 1 or 2, two valid tables agree on a service, or don't for exactly one reason, and never both. The call
/// does nothing; its clauses are the laws.
pub fn agreement_is_decided()
    ensures never_both { IsAgreementExclusive }
    ensures once { IsDisagreementUnique }
    ensures never_neither { IsAgreementDecided }
{}
