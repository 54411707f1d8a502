//! What a reader expects of the words of a trace. The functions have empty bodies: their contracts are the laws.

ghost use Rattle.m2_trace.specs.Laws as laws;

/// The word told of a judgement is the name of the first row of its table that holds where the entries before it lead.
#[tactic(auto, using(crate::proofs::Named::are_told))]
pub fn rows_are_told()
    ensures { laws.RowsAreTold }
{}

/// There is a cause of a connect exactly where one is due, the moment aside.
#[tactic(auto, using(crate::proofs::Dialled::are_of_dials))]
pub fn causes_are_of_dials()
    ensures { laws.CausesAreOfDials }
{}

/// The cause told of a connect is what makes one due where the entries before it lead.
pub fn connects_are_told()
    ensures { laws.ConnectsAreTold }
{}
