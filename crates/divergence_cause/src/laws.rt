//! Laws of causes. A call does nothing: its clause is the law.

ghost use Rattle.divergence_cause.specs.Laws.{HandedTwinsAreTwins, NoUpgradeWhereUnchanged, OneListOfCauses};

/// Views that are handed out are one but for ids just where what two calls can depend on is.
pub fn handed_twins_are_twins()
    ensures { HandedTwinsAreTwins }
{}

/// Where the replay has the captured schema, no call differs for the server.
pub fn unchanged_servers_upgrade_nothing()
    ensures { NoUpgradeWhereUnchanged }
{}

/// A replay has one list of causes.
pub fn one_list_of_causes()
    ensures { OneListOfCauses }
{}
