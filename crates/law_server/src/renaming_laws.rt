//! Laws of renaming. A call does nothing: its clause is the law.

ghost use Rattle.desk_values.specs.declared.value.Value.{Value};
ghost use Rattle.sql_eval.specs.declared.logic.Truth.{Truth};
ghost use Rattle.law_server.specs.Renaming.Cases.{EveryIdChanges, OneIdTwice};
ghost use Rattle.law_server.specs.Renaming.Inputs.{InputsNameNoRow};
ghost use Rattle.law_server.specs.Renaming.Laws.{AnswersAreRenamed, RepliesAreRenamed, ViewsRise};
ghost use Rattle.law_server.specs.Renaming.Order.{CountIgnoresOrder, FaultsIgnoreOrder, ItemsIgnoreOrder, KeysIgnoreOrder, RowFaultsIgnoreOrder, WhereIgnoresOrder};

/// Twin calls at twin views get replies that are equal after the map of ids, lengthened by the pairs of the values that both
/// drew and of the rows that both made, where no id stands twice on one side of it: rows as a bag, counts and faults as they
/// are.
pub fn answers_under_renaming()
    ensures { AnswersAreRenamed }
{}

/// The same of states that two servers of one schema come to: what a twin call is replied, where the sessions' views are twins.
pub fn replies_under_renaming()
    ensures { RepliesAreRenamed }
{}

/// What an answer takes of rows does not depend on their order.
pub fn answers_ignore_order()
    ensures condition { WhereIgnoresOrder }
    ensures values { FaultsIgnoreOrder Value }
    ensures truths { FaultsIgnoreOrder Truth }
    ensures row_faults { RowFaultsIgnoreOrder }
    ensures count { CountIgnoresOrder }
    ensures items { ItemsIgnoreOrder }
    ensures keys { KeysIgnoreOrder }
{}

/// The rows of a session's view and its own changes rise in every state that a server comes to, each row once.
pub fn views_rise()
    ensures { ViewsRise }
{}

/// The inputs of an INSERT that the checks pass name no row, so that the law on expressions holds for them too.
pub fn checked_inputs_name_no_row()
    ensures { InputsNameNoRow }
{}

/// The premises of the law can be met, and it does not hold without the one on ids that stand twice: in one worked case two
/// sessions drew in the other order, so that every id is another, and in the other case the replay draws an id that is the image of
/// another one, and answers otherwise.
pub fn worked_cases()
    ensures changed { EveryIdChanges }
    ensures twice { OneIdTwice }
{}
